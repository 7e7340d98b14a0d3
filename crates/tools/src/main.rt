// The programs mux, demux, bond and unbond, in one executable: the name by which it is started says which of them to run, or else its first
// argument does.
#![tactic(auto)]

ghost use Rattle.std.specs.Prelude.{◌≡◌, ◌-◌, length, drop};

mod arguments;
mod bonding;
mod carrier;
mod carriers;
mod demux;
mod gathering;
mod headings;
mod input;
mod mux;
mod nulls;
mod plan;
mod problem;
mod receiving;
mod settings;
mod sizes;
mod tally;
mod unbonding;

use arguments::Arguments;
use problem::Problem;

const USAGE: &str = "mux | demux | bond | unbond ARGUMENTS; each of them alone says which";

#[derive(Clone, Copy)]
enum Tool {
    Mux,
    Demux,
    Bond,
    Unbond,
}

// The last part of a path: what stands behind its last '/'.
fn base(path: &[u8]) -> &[u8]
    ensures { result.now ≡ drop (length path.now - length result.now) path.now }
{
    match path.iter().rposition(|b| *b == b'/') {
        Some(i) => &path[i + 1..],
        None => path,
    }
}

fn named(name: &[u8]) -> Option<Tool> {
    match name {
        b"mux" => Some(Tool::Mux),
        b"demux" => Some(Tool::Demux),
        b"bond" => Some(Tool::Bond),
        b"unbond" => Some(Tool::Unbond),
        _ => None,
    }
}

// The program that argument i names.
fn tool_at(rt: HostRuntime, i: usize) -> Option<Tool> {
    let mut buffer = io::buffer();
    named(base(arguments::word(rt, i, &mut buffer)))
}

impl Tool {
    fn run(self, args: Arguments) -> Result<(), Problem> {
        match self {
            Tool::Mux => mux::run(args),
            Tool::Demux => demux::run(args),
            Tool::Bond => bonding::run(args),
            Tool::Unbond => unbonding::run(args),
        }
    }
}

fn run(rt: HostRuntime) -> Result<(), Problem> {
    if let Some(tool) = tool_at(rt, 0) {
        return tool.run(Arguments::new(rt, 1));
    }
    if let Some(tool) = tool_at(rt, 1) {
        return tool.run(Arguments::new(rt, 2));
    }
    Err(Problem::Usage(USAGE))
}

fn main(rt: HostRuntime) {
    problem::said(rt, run(rt));
}
