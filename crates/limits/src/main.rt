// Prints what a menu has to know, from the constants that the calls check against, as text with tabs between the fields of a line:
//   field: its name; in plain headers its first and its last value, and the refusal of any other (0: none is refused); the same three for
//     extended headers, and for short ones (a field that a kind does not have is 0 to 0; - where no call of that kind has it); the value up
//     to which these refusals hold, and the refusal above it (0: the field's bytes hold nothing above). A short header's availability has
//     no bits behind the seventh stream's, so it is a multiple of 256 too;
//   refusal: its number and its name, in the order in which a call checks;
//   length: of what, and how many bytes;
//   place: of which field in a setting's bytes, where it starts, and how many bytes it has.
#![tactic(auto)]

mod fields;
mod layout;
mod table;

use std::fmt::Display;

// Prints a line for each. A write that fails is not reported: what was not written is missing in the table.
fn print<T: Display>(rt: HostRuntime, lines: &[T]) {
    for line in lines {
        let _ = println!(rt; "{line}");
    }
}

fn main(rt: HostRuntime) {
    print(rt, &fields::header_fields());
    print(rt, &fields::stream_fields());
    print(rt, &fields::bonding_fields());
    print(rt, &fields::numbers());
    print(rt, &table::lent());
    print(rt, &table::header());
    print(rt, &table::setting());
    print(rt, &table::call());
    print(rt, &layout::lengths());
    print(rt, &layout::private_lengths());
    print(rt, &layout::places());
    print(rt, &layout::stream_places());
    print(rt, &layout::extended_places());
}
