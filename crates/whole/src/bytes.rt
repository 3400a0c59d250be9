// Eight bytes at a place of a slice, the lowest first, as a number.
ghost use Rattle.std.specs.Prelude.{◌≡◌, ◌+◌, ◌≤◌, length};
ghost use Rattle.whole.specs.Bytes.{number_at, put, Eight, ReadBack, Kept, Below, BytesBack, SignedBytesBack};

use super::bits::Word;

pub fn write<T: Word>(bytes: &mut [u8], at: usize, x: T)
    requires { at + 8 ≤ length bytes.old }
    ensures written { bytes.new ≡ put bytes.old at (T.bits x) }
    ensures back { T.fits x → T.of_bits (number_at bytes.new at) ≡ x }
{
    bytes[at..at + 8].copy_from_slice(&x.to_bits().to_le_bytes());
}

pub fn read<T: Word>(bytes: &[u8], at: usize) -> T
    requires { at + 8 ≤ length bytes.now }
    ensures { result ≡ T.of_bits (number_at bytes.now at) }
{
    // Byte by byte: a copied slice costs more.
    T::from_bits(u64::from_le_bytes([
        bytes[at],
        bytes[at + 1],
        bytes[at + 2],
        bytes[at + 3],
        bytes[at + 4],
        bytes[at + 5],
        bytes[at + 6],
        bytes[at + 7],
    ]))
}

// Bytes lose nothing: what is written is read back, a write elsewhere changes nothing, and bytes that are read are those
// of the number read.
pub fn bytes_stand()
    ensures eight { Eight }
    ensures back { ReadBack }
    ensures kept { Kept }
    ensures below { Below }
    ensures again { BytesBack }
    ensures signed { SignedBytesBack }
{}
