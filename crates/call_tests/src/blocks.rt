// The form of blocks of 96 bytes.
use raw_subcode::{Block, text_symbols};

// P and Q of the first byte, in both forms.
#[test]
fn planar_form(rt: HostRuntime) {
    let mut bytes = [0; 96];
    bytes[0] = 0xc0;
    let mut planar = [0; 96];
    planar[0] = 0x80;
    planar[12] = 0x80;
    let block = Block::from_bytes(&bytes);
    assert!(rt; block.to_planar() == planar && Block::from_planar(&planar) == block);
    let bits = [
        block.bit(0, 0),
        block.bit(1, 0),
        block.bit(2, 0),
        block.bit(1, 1),
    ];
    assert_eq!(rt; bits, [true, true, false, false]);
}

// The start of a pause before track 1, as it is on a disc.
#[test]
fn built_block(rt: HostRuntime) {
    let q = [1, 1, 0, 0, 2, 0, 0, 0, 0, 0, 0xf0, 0xd9];
    let block = Block::build(true, &q, &[0; 96]);
    let mut front = [0x80; 32];
    front[7] = 0xc0;
    front[15] = 0xc0;
    assert!(rt; block.bytes().starts_with(&front));
    assert_eq!(rt; (block.q_frame(), block.symbol(95)), (q, 0));
}

// The first symbol has six bits of byte 0. The next two symbols have bits of two neighbouring bytes each.
#[test]
fn text_pack(rt: HostRuntime) {
    let mut pack = [0; 18];
    pack[0] = 0x80;
    pack[1] = 0x01;
    pack[17] = 0x3f;
    let symbols = text_symbols(&pack);
    let ends = [symbols[0], symbols[1], symbols[2], symbols[23]];
    assert!(rt; ends == [32, 0, 4, 63]);
    let mut all = [0; 96];
    all[72..].copy_from_slice(&symbols);
    assert!(rt; Block::from_bytes(&all).text_pack(3) == pack);
}

// The audio of a sector is skipped.
#[test]
fn sector(rt: HostRuntime) {
    let mut sector = [0xff; 2448];
    for i in 0..96 {
        sector[2352 + i] = i as u8;
    }
    let block = Block::from_sector(&sector);
    assert_eq!(rt; (block.bytes()[0], block.bytes()[95]), (0, 95));
}
