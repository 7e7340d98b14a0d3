// unbond: the files of a group's carriers in, their one stream out.
use crate::arguments::{Arguments, PID};
use crate::carrier::Buffers;
use crate::carriers::{GROUP_BYTES, STREAM_BYTES};
use crate::gathering::Group;
use crate::problem::{About, Problem, said};
use crate::{bonding, carriers};
use bond_group::headers::CARRIERS;

// The arguments: PID, TS_ID and NETWORK_ID; then a file for each carrier, carrier 1 first.
const HEAD: usize = 3;

const USAGE: &str =
    "unbond PID TS_ID NETWORK_ID CARRIER_FILE.. > STREAM; the files in the carriers' order";

// Gathers all that the carriers have. A function of its own for its buffers, which are cleared where a function that has them begins.
fn gather(carriers: &mut Group) -> Result<(), Problem> {
    let mut buffers = [Buffers::EMPTY; CARRIERS];
    let mut group = [0u8; GROUP_BYTES];
    let mut stream = [0u8; STREAM_BYTES];
    carriers.gather_all(&mut buffers, &mut group, &mut stream)
}

fn run_carriers(args: Arguments, count: u8) -> Result<(), Problem> {
    let pid = args.number(0, About::Run, PID)?;
    let bond = bonding::bond_at(args, 1, pid, count)?;
    let mut carriers = Group::new(args.rt, bond);
    if !carriers.open(args.behind(HEAD)) {
        return Ok(());
    }
    said(args.rt, gather(&mut carriers));
    carriers.say();
    Ok(())
}

// Apart from the other programs, so that only the one that runs takes stack for its buffers.
#[inline(never)]
pub(crate) fn run(args: Arguments) -> Result<(), Problem> {
    let count = args.count().saturating_sub(HEAD);
    if count == 0 {
        return Err(Problem::Usage(USAGE));
    }
    run_carriers(args, carriers::count(count)?)
}
