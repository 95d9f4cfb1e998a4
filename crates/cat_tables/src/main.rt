//! Answers calls of the libraries, a line for each. Its input and its output are the tables of what the calls give.
#![tactic(auto)]

use cat_rows::{Arguments, Problem};
use cat_rows_data::{
    day_answer, forest_answer, forest_chain_answer, frac_answer, money_answer, order_answer,
    read_input_answer, read_inputs_answer, read_value_answer, region_answer, span_answer,
    whole_answer, write_answer, write_input_answer, write_value_answer,
};
use cat_rows_text::{
    chain_answer, cuts_answer, gather_answer, node_positions_answer, program_answer,
    program_cuts_answer, program_swaps_answer, token_positions_answer, tokens_answer,
    tower_height_answer, tower_tree_answer, tree_answer, weave_answer,
};
use std::alloc::Global;
use std::io::{self, BufRead, BufReader, BufWriter, ErrorKind, Write};

/// The first word of a line.
#[derive(Clone, Copy)]
enum Subject {
    Frac,
    Whole,
    Money,
    Day,
    Span,
    Order,
    Tokens,
    TokenPositions,
    Tree,
    NodePositions,
    Cuts,
    TowerHeight,
    TowerTree,
    Program,
    ProgramCuts,
    ProgramSwaps,
    Forest,
    ForestChain,
    Region,
    Weave,
    Gather,
    IncludeChain,
    ReadValue,
    ReadInput,
    ReadInputs,
    WriteValue,
    WriteInput,
    WriteAnswer,
}

const SUBJECTS: [(&str, Subject); 28] = [
    ("frac", Subject::Frac),
    ("whole", Subject::Whole),
    ("money", Subject::Money),
    ("day", Subject::Day),
    ("span", Subject::Span),
    ("order", Subject::Order),
    ("tokens", Subject::Tokens),
    ("token_positions", Subject::TokenPositions),
    ("tree", Subject::Tree),
    ("node_positions", Subject::NodePositions),
    ("cuts", Subject::Cuts),
    ("tower_height", Subject::TowerHeight),
    ("tower_tree", Subject::TowerTree),
    ("program", Subject::Program),
    ("program_cuts", Subject::ProgramCuts),
    ("program_swaps", Subject::ProgramSwaps),
    ("forest", Subject::Forest),
    ("forest_chain", Subject::ForestChain),
    ("region", Subject::Region),
    ("weave", Subject::Weave),
    ("gather", Subject::Gather),
    ("include_chain", Subject::IncludeChain),
    ("read_value", Subject::ReadValue),
    ("read_input", Subject::ReadInput),
    ("read_inputs", Subject::ReadInputs),
    ("write_value", Subject::WriteValue),
    ("write_input", Subject::WriteInput),
    ("write_answer", Subject::WriteAnswer),
];

/// What the call of the line gives. A comment and an empty line stay as they are.
fn answer(alloc: Global, line: &str) -> Result<String, Problem> {
    if line.is_empty() || line.starts_with('#') {
        return Ok(String::from_str(alloc, line)?);
    }
    let mut given = Arguments::of(line);
    let subject = given.choice(&SUBJECTS)?;
    answer_on(alloc, subject, &mut given)
}

fn answer_on(
    alloc: Global,
    subject: Subject,
    given: &mut Arguments<'_>,
) -> Result<String, Problem> {
    match subject {
        Subject::Frac => frac_answer(alloc, given),
        Subject::Whole => whole_answer(alloc, given),
        Subject::Money => money_answer(alloc, given),
        Subject::Day => day_answer(alloc, given),
        Subject::Span => span_answer(alloc, given),
        Subject::Order => order_answer(alloc, given),
        Subject::Tokens => tokens_answer(alloc, given),
        Subject::TokenPositions => token_positions_answer(alloc, given),
        Subject::Tree => tree_answer(alloc, given),
        Subject::NodePositions => node_positions_answer(alloc, given),
        Subject::Cuts => cuts_answer(alloc, given),
        Subject::TowerHeight => tower_height_answer(alloc, given),
        Subject::TowerTree => tower_tree_answer(alloc, given),
        Subject::Program => program_answer(alloc, given),
        Subject::ProgramCuts => program_cuts_answer(alloc, given),
        Subject::ProgramSwaps => program_swaps_answer(alloc, given),
        Subject::Forest => forest_answer(alloc, given),
        Subject::ForestChain => forest_chain_answer(alloc, given),
        Subject::Region => region_answer(alloc, given),
        Subject::Weave => weave_answer(alloc, given),
        Subject::Gather => gather_answer(alloc, given),
        Subject::IncludeChain => chain_answer(alloc, given),
        Subject::ReadValue => read_value_answer(alloc, given),
        Subject::ReadInput => read_input_answer(alloc, given),
        Subject::ReadInputs => read_inputs_answer(alloc, given),
        Subject::WriteValue => write_value_answer(alloc, given),
        Subject::WriteInput => write_input_answer(alloc, given),
        Subject::WriteAnswer => write_answer(alloc, given),
    }
}

fn main(rt: HostRuntime) -> io::Result<()> {
    let alloc = rt.alloc();
    let lines = BufReader::new(alloc, rt.reader())?.lines(alloc);
    let mut out = BufWriter::new(alloc, io::writer(&rt))?;
    for line in lines {
        let line = line?;
        match answer(alloc, line.as_str()) {
            Ok(answer) => writeln!(out, "{answer}")?,
            Err(Problem::Unreadable) => writeln!(out, "unreadable")?,
            Err(Problem::Memory) => return Err(io::Error::from(ErrorKind::OutOfMemory)),
        }
    }
    out.flush()
}
