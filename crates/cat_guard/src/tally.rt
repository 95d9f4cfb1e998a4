// What is counted of the members of a list.
ghost use Rattle.std.specs.Prelude.{◌≡◌, ℕ, Bool, Option, false, None, []};
ghost use Rattle.cat_guard.specs.declared.table.TableTarget.{TableTarget as TargetSeen};
ghost use Rattle.cat_guard.specs.inside.Found.{Finds};
ghost use Rattle.cat_guard.specs.inside.Counting.{Counts, HasOpen, completed};

/// How a member of a list is judged: the definition of that number among the target's holds, none does, there is a
/// conflict, or it hangs on an undecided atom.
#[derive(Clone, Copy, PartialEq, Eq, Debug)]
pub enum MemberJudgement {
    Holds(u32),
    Empty,
    Conflict,
    Needs(usize),
}

/// The members of a list that were counted: whether there is a conflict, the first definition that holds, and the first
/// atom that a member hangs on.
#[derive(Clone, Copy, PartialEq, Eq, Debug)]
pub struct Tally {
    pub conflict: bool,
    pub held: Option<u32>,
    pub needs: Option<usize>,
}

impl Tally {
    pub(crate) fn new() -> Tally
        ensures { result ≡ record { conflict = false; held = None; needs = None } }
    {
        Tally {
            conflict: false,
            held: None,
            needs: None,
        }
    }

    /// One member more.
    pub(crate) fn with_member(self, member: MemberJudgement) -> Tally
        ensures { Counts self member result }
    {
        match member {
            MemberJudgement::Holds(number) => match self.held {
                Some(_) => Tally {
                    conflict: true,
                    ..self
                },
                None => Tally {
                    held: Some(number),
                    ..self
                },
            },
            MemberJudgement::Empty => self,
            MemberJudgement::Conflict => Tally {
                conflict: true,
                ..self
            },
            MemberJudgement::Needs(atom) => match self.needs {
                Some(_) => self,
                None => Tally {
                    needs: Some(atom),
                    ..self
                },
            },
        }
    }

    /// How the list is judged whose members these are.
    pub(crate) fn total(self) -> MemberJudgement
        ensures { (answers : ℕ → Option Bool) (t : TargetSeen) → HasOpen answers t self.needs
            → Finds answers t (completed self []) result }
    {
        if self.conflict {
            return MemberJudgement::Conflict;
        }
        match (self.needs, self.held) {
            (Some(atom), _) => MemberJudgement::Needs(atom),
            (None, Some(number)) => MemberJudgement::Holds(number),
            (None, None) => MemberJudgement::Empty,
        }
    }
}
