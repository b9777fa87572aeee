//! The reserved bits as they were received.
//!
//! The first three cells of the table are reserved. They go out clear, and what comes in may have them set. A word with other
//! reserved cells and the same information differs from it by a product word that holds no information.
ghost use Rattle.std.specs.Prelude.{◌≡◌, length};
ghost use Rattle.dmr_bptc.specs.ProductWord.{IsProductWord, information};

use crate::encoding::bits_of;
use dmr_bits::Bits;

/// For each number of three bits the product word that has them in the reserved cells, the highest first, and holds no information:
/// 64 places in each of three words, and the last four in one more.
const RESERVED: [[u64; 4]; 8] = [
    [
        0x0000000000000000,
        0x0000000000000000,
        0x0000000000000000,
        0x0,
    ],
    [
        0x4001800a000c0058,
        0x006002c003000600,
        0x0800110001000200,
        0x1,
    ],
    [
        0x40038000001c0008,
        0x00e0004007000200,
        0x0800100003000000,
        0x0,
    ],
    [
        0x0002000a00100050,
        0x0080028004000400,
        0x0000010002000200,
        0x1,
    ],
    [
        0x0001800400080028,
        0x0040014002000a00,
        0x0000100001000400,
        0x0,
    ],
    [
        0x4000000e00040070,
        0x0020038001000c00,
        0x0800010000000600,
        0x1,
    ],
    [
        0x4002000400140020,
        0x00a0010005000800,
        0x0800000002000400,
        0x0,
    ],
    [
        0x0003800e00180078,
        0x00c003c006000e00,
        0x0000110003000600,
        0x1,
    ],
];

/// A product word with the reserved cells changed to those of received bits where its own are clear, and the same information.
pub(crate) fn with_reserved_cells(word: &Bits<196>, received: &Bits<196>) -> Bits<196>
    ensures word { IsProductWord word.now → IsProductWord result }
    ensures information { information result ≡ information word.now }
    ensures long { length result ≡ 196 }
    ensures length { length received.now ≡ 196 }
{
    let first = received.field(181, 1);
    let second = received.field(166, 1);
    let third = received.field(151, 1);
    let number = 4 * first + 2 * second + third;
    word.xor(&bits_of(&RESERVED[number as usize]))
}
