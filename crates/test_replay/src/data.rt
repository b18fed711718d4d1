use board_bytes::bytes::word;

// The data's number k, of two bytes, the high one first. A number past the end is 0.
pub fn number(data: &[u8], k: usize) -> u16 {
    if k < data.len() / 2 {
        word(data, k * 2)
    } else {
        0
    }
}
