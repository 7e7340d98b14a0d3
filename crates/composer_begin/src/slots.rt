// The slots of a frame, one after another: slot i is the 188 bytes at 188 × i.
ghost use Rattle.std.specs.Prelude.{◌≡◌, length};
ghost use Rattle.packet.specs.Packets.{packet_length, frame_length, null_packet};
ghost use Rattle.composer.specs.Slots.{cleared};

use packet::PACKET_BYTES;

// Writes a null packet into a slot.
fn write_null(slot: &mut [u8])
    requires { length slot.old ≡ packet_length }
    ensures { slot.new ≡ null_packet }
{
    slot.fill(0xFF);
    slot[0] = 0x47;
    slot[1] = 0x1F;
    slot[3] = 0x10;
}

// Writes null packets into the slots, of which the frame has so many.
pub(crate) fn clear(frame: &mut [u8], slots: usize)
    requires { length frame.old ≡ frame_length slots }
    ensures { frame.new ≡ cleared slots frame.old }
{
    // By number: behind `chunks_exact_mut` a proof does not know what was written.
    for i in 1..slots + 1 {
        let at = PACKET_BYTES * i;
        write_null(&mut frame[at..at + PACKET_BYTES]);
    }
}
