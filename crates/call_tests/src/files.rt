// A conversion from a file to a file.
use cdg_io::{ReadSource, WriteSink};
use std::fs::File;
use std::test::Fail;
use std::{fs, io};
use subcode_player::{Form, PlayStop, Played, Player};

fn convert_file(
    rt: &HostRuntime,
    blocks: File,
    packs: File,
) -> Result<Result<Played, PlayStop>, Fail> {
    let mut source = ReadSource::new(blocks);
    let mut sink = WriteSink::new(packs);
    let mut player = Player::start(rt.alloc())?;
    Ok(player.convert(0, Form::Raw, &mut source, &mut sink))
}

// Whether a file has these bytes.
fn holds(rt: &HostRuntime, name: &str, bytes: &[u8]) -> io::Result<bool> {
    Ok(fs::read(rt, name)?.as_slice() == bytes)
}

#[test]
fn a_file_is_converted_to_a_file(rt: HostRuntime) -> Result<(), Fail> {
    fs::write(&rt, "blocks.raw", [0; 192])?;
    let blocks = File::open(&rt, "blocks.raw")?;
    let played = convert_file(&rt, blocks, File::create(&rt, "packs.cdg")?)?;
    assert_eq!(rt; played, Ok(Played { blocks: 2, bad: 0 }));
    assert!(rt; holds(&rt, "packs.cdg", &[0; 24])?);
    fs::remove_file(&rt, "blocks.raw")?;
    fs::remove_file(&rt, "packs.cdg")?;
    Ok(())
}
