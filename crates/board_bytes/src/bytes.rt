// Numbers of 16 bits from bytes, the high byte first.
ghost use Rattle.std.specs.Prelude.{◌≡◌, suc, ◌<◌, length};
ghost use Rattle.board_bytes.specs.File.{word_at, signed_of};

// The unsigned number of the bytes i and i + 1.
#[tactic(auto, unfolding(crate::specs::File::word_at))]
pub fn word(bytes: &[u8], i: usize) -> u16
    requires { suc i < length bytes.now }
    ensures { result ≡ word_at bytes.now i }
{
    u16::from_be_bytes([bytes[i], bytes[i + 1]])
}

// The signed number of the same bits: the upper half of the unsigned ones is negative.
#[tactic(auto, unfolding(crate::specs::File::signed_of))]
pub fn signed(n: u16) -> i16
    ensures { result ≡ signed_of n }
{
    n.cast_signed()
}
