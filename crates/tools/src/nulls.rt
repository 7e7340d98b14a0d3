// Null packets for a whole group. The composer has a function of its own, which writes one slot and says in a clause what it wrote.
use packet::PACKET_BYTES;

// The head of a null packet. Behind it stand ones.
const HEAD: [u8; 4] = [0x47, 0x1F, 0xFF, 0x10];

// Writes null packets over all of the bytes.
pub(crate) fn write_nulls(bytes: &mut [u8]) {
    bytes.fill(0xFF);
    for packet in bytes.chunks_exact_mut(PACKET_BYTES) {
        if let Some(head) = packet.first_chunk_mut() {
            *head = HEAD;
        }
    }
}
