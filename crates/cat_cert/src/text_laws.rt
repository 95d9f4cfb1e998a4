// What holds of certificates: each law is the contract of a function.
ghost use Rattle.std.specs.Prelude.{◌≡◌, ◌<◌, ◌≤◌, ◌^◌, ℕ, List, Option, IsTrue, map, length};
ghost use Rattle.cat_scope.specs.Names.{AllHave};
ghost use Rattle.cat_guard.specs.declared.table.Table.{Table as TableSeen};
ghost use Rattle.cat_guard.specs.declared.tree.CitedTree.{CitedTree as CitedSeen};
ghost use Rattle.cat_guard.specs.Trees.{Tree, expanded};
ghost use Rattle.cat_cert.specs.declared.certificate.Version.{Version as VersionSeen};
ghost use Rattle.cat_cert.specs.declared.certificate.Version.TheVariants.{Two};
ghost use Rattle.cat_cert.specs.declared.certificate.Certificate.{Certificate as CertificateSeen};
ghost use Rattle.cat_cert.specs.declared.refusal.CertRefusal.{CertRefusal as RefusalSeen};
ghost use Rattle.cat_cert.specs.declared.refusal.CertRefusal.TheVariants.{Memory};
ghost use Rattle.cat_cert.specs.Lines.{dues_of, certificate_lines};
ghost use Rattle.cat_cert.specs.Certified.{is_atom_of};
ghost use Rattle.cat_cert.specs.Certifiable.{shared_tree, AreCertifiable};
ghost use Rattle.cat_cert.specs.Texts.{certificate_text, names_are_lines};
ghost use Rattle.cat_cert.specs.Fronts.{IsCertificate};
ghost use Rattle.cat_cert.specs.Causes.{IsRead, IsRefused};
ghost use Rattle.cat_cert.specs.ReadTrees.{AreReadTrees, IsReadAs};

use cat_walk::{named_parts_are_subtrees, shared_trees_stand_for_the_tree};

/// The atoms of a table's targets are atoms of the table.
pub fn atoms_of_targets_are_there()
    ensures { (table : TableSeen) → AllHave (λ t. (a : ℕ) → IsTrue (is_atom_of t a) → a < length table.atoms)
        table.targets }
{}

/// Whole trees of which a certificate can be written are one with their equal parts written once, and these stand for
/// them.
pub fn shared_trees_are_certificates()
    ensures certificate { (tables : List TableSeen) (found : List (Option Tree)) → AreCertifiable (dues_of tables) found
        → IsCertificate tables (certificate_lines Two tables (map shared_tree found)) Two (map shared_tree found) }
    ensures stand { (tables : List TableSeen) (found : List (Option Tree)) → AreCertifiable (dues_of tables) found
        → map expanded (map shared_tree found) ≡ found }
{
    named_parts_are_subtrees();
    shared_trees_stand_for_the_tree();
}

/// What a certificate is written as is read as a certificate of its trees, where no name holds a line feed.
#[tactic(auto, using(crate::proofs::ReadBackLemmas::read_as))]
pub fn written_certificates_are_read()
    ensures { (v : VersionSeen) (tables : List TableSeen) (trees : List CitedSeen) → IsTrue (names_are_lines tables)
        → IsCertificate tables (certificate_lines v tables trees) v trees
        → IsReadAs tables (certificate_text v tables trees) v trees }
{}

/// The trees that are read of a text are those of the targets, each of no more than the most leaves, and written in
/// lines
/// of this text.
#[tactic(auto, using(crate::proofs::ReadTreeLemmas::read_trees))]
pub fn read_trees_are_those_of_targets()
    ensures { (tables : List TableSeen) (bytes : List ℕ) (c : CertificateSeen) → IsRead tables bytes c
        → AreReadTrees (length bytes) c.version (dues_of tables) c.trees }
{}

/// What is read of a text isn't refused, unless for want of memory.
pub fn read_texts_are_not_refused()
    ensures { (tables : List TableSeen) (bytes : List ℕ) (c : CertificateSeen) (why : RefusalSeen)
        → IsRead tables bytes c → IsRefused tables bytes why → why ≡ Memory }
{}

/// A text is read in one way, where its length and the numbers of atoms are numbers that are written.
pub fn texts_are_read_in_one_way()
    ensures { (tables : List TableSeen) (bytes : List ℕ) (c : CertificateSeen) (d : CertificateSeen)
        → AllHave (λ table. length table.atoms ≤ 2 ^ 64) tables → length bytes < 2 ^ 64
        → IsRead tables bytes c → IsRead tables bytes d → c ≡ d }
{}
