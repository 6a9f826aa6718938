use crate::{Wish, read_words};
use fr_bytes::ReadRefusal;
use std::test::Fail;

const SCRIPT: Result<Wish, ReadRefusal> = Ok(Wish::Script);

const REFUSED: Result<Wish, ReadRefusal> = Err(ReadRefusal::NotForm);

const fn generated(number: u32) -> Result<Wish, ReadRefusal> {
    Ok(Wish::Generated { number })
}

#[test]
fn words_ask_for_a_script_or_a_number(rt: HostRuntime) -> Result<(), Fail> {
    let table = [
        (["run"].as_slice(), SCRIPT),
        (["run", "--number", "5"].as_slice(), generated(5)),
        (["--number=5", "run"].as_slice(), generated(5)),
        (["run", "--number", "+5"].as_slice(), generated(5)),
        (["run", "--number=007"].as_slice(), generated(7)),
        (
            ["run", "--number", "4294967295"].as_slice(),
            generated(4_294_967_295),
        ),
        (["run", "--number", "4294967296"].as_slice(), REFUSED),
        (["run", "--number=-0"].as_slice(), REFUSED),
        (["run", "--number="].as_slice(), REFUSED),
        (["run", "--number", "0x5"].as_slice(), REFUSED),
        (
            ["run", "--number", "1", "--number", "2"].as_slice(),
            REFUSED,
        ),
        (["run", "--number"].as_slice(), REFUSED),
        (["--number", "5"].as_slice(), REFUSED),
        (["run", "run"].as_slice(), REFUSED),
        (["--help"].as_slice(), REFUSED),
        (["runs"].as_slice(), REFUSED),
        ([""].as_slice(), REFUSED),
        ([].as_slice(), REFUSED),
    ];
    for (words, wanted) in table {
        assert_eq!(rt; read_words(rt.alloc(), words), wanted);
    }
    Ok(())
}
