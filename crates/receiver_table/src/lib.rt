// The receiver's table for headers and broken packets: what each does, by where the receiver stands. The rows of other packets are in
// receiver_receive, where such a packet is stored.
#![tactic(auto)]

ghost use Rattle.std.specs.Prelude.{◌≡◌, ℕ};
ghost use Rattle.receiver.specs.Table.{good, broken, other, open_row, row_of};

use receiver::{Event, Row, Stage};

// What a good header with this counter does. If a packet is stored for each slot and the counter steps by 1, the frame before it is ready.
pub fn header_row(slots: u8, stage: Stage, to: u8) -> Row
    ensures { result ≡ row_of slots stage good to }
{
    match stage {
        Stage::Waiting => Row {
            event: Event::Opened,
            stage: Stage::Open(to, 0),
        },
        Stage::Open(from, k) => vouch(slots, from, k, to),
        Stage::Ready(from) => vouch(slots, from, 0, to),
    }
}

fn vouch(slots: u8, from: u8, k: u8, to: u8) -> Row
    ensures { result ≡ open_row slots from k good to }
{
    if k < slots {
        return Row {
            event: Event::Short,
            stage: Stage::Open(to, 0),
        };
    }
    if k == slots {
        if to.wrapping_sub(from) % 16 == 1 {
            return Row {
                event: Event::Ready,
                stage: Stage::Ready(to),
            };
        }
    }
    Row {
        event: Event::Jump,
        stage: Stage::Open(to, 0),
    }
}

// What a broken packet does, however many slots there are: it lacks 0x47, or bears the header PID without being a good header. Its remainder
// goes with 'broken'; a receiver that waits has no use for it.
#[tactic(auto, unfolding(receiver::specs::Table::row_of, receiver::specs::Table::open_row))]
pub fn broken_row(stage: Stage, remainder: u32) -> Row
    ensures { (slots : ℕ) → result ≡ row_of slots stage (broken remainder) 0 }
{
    match stage {
        Stage::Waiting => Row {
            event: Event::Nothing,
            stage: Stage::Waiting,
        },
        Stage::Open(_, _) | Stage::Ready(_) => Row {
            event: Event::Broken(remainder),
            stage: Stage::Waiting,
        },
    }
}
