//! Reserved bits and lengths.
use edid_cta::{DataBlock, Ext, read_ext};
use edid_tables::{cut_of, has_reserved, left_of};
use std::process::Abort;

/// An extension with one data block, of a tag, 0 to 7, and the first 31 bytes of a payload.
fn ext_of(rt: &(impl Abort + AllocGlobal), tag: u8, payload: &[u8]) -> Ext {
    let count = payload.len().min(31) as u8;
    let mut bytes = [0; 128];
    bytes[0] = 0x02;
    bytes[1] = 0x03;
    bytes[2] = 5 + count;
    bytes[4] = tag % 8 * 32 + count;
    let mut sum = bytes[0]
        .wrapping_add(bytes[1])
        .wrapping_add(bytes[2])
        .wrapping_add(bytes[4]);
    for (place, byte) in payload.iter().take(31).enumerate() {
        *bytes.get_mut(place.saturating_add(5)).expect(rt, "a byte") = *byte;
        sum = sum.wrapping_add(*byte);
    }
    bytes[127] = sum.wrapping_neg();
    read_ext(&bytes).expect(rt, "an extension")
}

/// An extension with one data block, of a tag and a payload in hex, a space between them.
pub(crate) fn parsed(rt: &(impl Abort + AllocGlobal), words: &str) -> Ext {
    let (tag, digits) = words.split_once(' ').expect(rt, words);
    let bytes = hex::decode(rt.alloc(), digits).expect(rt, "hex digits");
    ext_of(rt, u8::from_str_radix(tag, 8).expect(rt, words), &bytes)
}

/// The data block of such an extension.
pub(crate) fn block_of<'a>(rt: &impl Abort, ext: &'a Ext) -> &'a DataBlock {
    match ext {
        Ext::Cta(cta) => cta.blocks.as_slice().first().expect(rt, "a data block"),
        Ext::Bare(_) | Ext::Raw(_) => panic!(rt; "no data blocks"),
    }
}

/// The bits of a byte.
const BITS: &[u8] = &[1, 2, 4, 8, 16, 32, 64, 128];

/// The bits of a byte of a block that are reserved where they alone are turned.
fn mask_at(rt: &(impl Abort + AllocGlobal), block: &DataBlock, place: usize) -> u8 {
    let mut found = 0_u8;
    for bit in BITS {
        let mut bytes = block
            .payload
            .as_slice()
            .to_vec(rt.alloc())
            .expect(rt, "bytes");
        *bytes.get_mut(place).expect(rt, "such a byte") ^= *bit;
        let turned = ext_of(rt, block.kind.number(), &bytes);
        if has_reserved(block_of(rt, &turned)) {
            found |= *bit;
        }
    }
    found
}

/// A block in which nothing is reserved, how many bytes of it say which block it is, and the bits of the others that are reserved
/// where they alone are turned.
const RESERVED_BITS: &str = "\
7 0000 1 00
7 050000 1 0000
7 060000000000 1 f0fe000000
3 d85dc401000000000000000000 3 ff0000800000000088c0
7 79000001000000000000000000 1 ffffff0000800000000088c0
4 000000 0 0000e0
7 0d10 1 10
7 0e61 1 80
7 0f00 1 00
7 7801 1 00
2 10 0 10
1 090707 0 8880f8
1 570701 0 8080fc
1 780759 0 8f80d0
7 0146d00026000000000000 4 c0000002000000
7 0146d00046000000000000 4 a0000400000000
3 030c001000000000 3 0000060010
3 030c0010000000200000 3 00000600100700
3 030c001000000020002001 3 00000600f00720fd
3 030c00100000002020020001 3 000006003047e27e80
3 030c00100000002000020810 3 000006003067e2076f
";

#[test]
fn reserved_bits_are_found(rt: HostRuntime) {
    for row in RESERVED_BITS.lines() {
        let (words, want) = row.rsplit_once(' ').expect(&rt, row);
        let (words, front) = words.rsplit_once(' ').expect(&rt, row);
        let ext = parsed(&rt, words);
        let block = block_of(&rt, &ext);
        assert!(rt; !has_reserved(block), "{row}");
        let front = usize::from_str_radix(front, 10).expect(&rt, row);
        let want = hex::decode(rt.alloc(), want).expect(&rt, row);
        for (offset, mask) in want.iter().enumerate() {
            let found = mask_at(&rt, block, front.saturating_add(offset));
            assert!(rt; found == *mask, "{row}: {found:02x}");
        }
    }
}

/// Blocks in which something is reserved.
const RESERVED: &str = "\
2 00
2 80
2 10dc
7 0e80
7 0e0161e1
7 0d1080
7 0dff
1 010707
1 790707
1 090707110787010707
";

/// Blocks in which nothing is.
const KNOWN: &str = "\
2 01107f81c0c1db
7 0e017fc1db
7 0d01107f8190a0afc1fdfe
7 0d
1 0907071107870d0702
0 ff
5 ff
6 ff
7 ffff
3 1a0000ff
3 030c
";

#[test]
fn reserved_values_are_found(rt: HostRuntime) {
    for row in RESERVED.lines() {
        let ext = parsed(&rt, row);
        assert!(rt; has_reserved(block_of(&rt, &ext)), "{row}");
    }
    for row in KNOWN.lines() {
        let ext = parsed(&rt, row);
        assert!(rt; !has_reserved(block_of(&rt, &ext)), "{row}");
    }
}

/// A block, how many bytes it lacks, and how many are left over.
const LENGTHS: &str = "\
7 00 1 0
7 000f 0 0
7 000f00 0 1
7 0500 1 0
7 050000 0 0
7 05000000 0 1
7 06 2 0
7 0601 1 0
7 060101 0 0
7 06010101 0 0
7 060101010101 0 0
7 06010101010101 0 1
7 0d 1 0
7 0d1010 0 0
7 0e 0 0
7 0f 0 0
7 78 1 0
7 7801 0 0
7 780101 0 1
7 7900000100 2 0
7 79000001000000 0 0
3 d85dc4010000 1 0
3 d85dc401000000 0 0
3 d85dc401000000000000000000 0 0
3 d85dc40100000000000000000000 0 1
3 030c00 2 0
3 030c0010 1 0
3 030c001000 0 0
3 030c0010000000 0 0
3 030c001000000080 2 0
3 030c001000000080010b 0 0
3 030c0010000000c0010b01 1 0
3 030c0010000000200020 1 0
3 030c001000000020002001 0 0
3 030c001000000000000000 0 0
4 0000 1 0
4 000000 0 0
4 00000000 0 1
1 0907 1 0
1 090707 0 0
1 09070711 2 0
7 0146d00026000000000000 0 0
7 0146d0002600000000 5 0
7 0146d0004600 5 0
7 0146d00000000000000000000000000000000000 0 0
2 10 0 0
0 10 0 0
7 ff 0 0
";

#[test]
fn lengths_are_judged(rt: HostRuntime) {
    for row in LENGTHS.lines() {
        let (words, left) = row.rsplit_once(' ').expect(&rt, row);
        let (words, cut) = words.rsplit_once(' ').expect(&rt, row);
        let ext = parsed(&rt, words);
        let block = block_of(&rt, &ext);
        let cut = usize::from_str_radix(cut, 10).expect(&rt, row);
        let left = usize::from_str_radix(left, 10).expect(&rt, row);
        assert!(rt; cut_of(block) == cut && left_of(block) == left, "{row}");
    }
}
