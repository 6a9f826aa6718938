use crate::{Chosen, Form, Unchosen, choose};
use fr_edges::MemSource;
use std::alloc::{AllocError, Global};
use std::test::Fail;

// A script of one user and one wall, without a phase, up to its tamper lines.
const FRONT: &str = "{\"format\":1,\"digest\":\"sha\",\"users\":[{\"user\":1,\
    \"private\":\"0101010101010101010101010101010101010101010101010101010101010101\",\
    \"id\":\"41414141414141414141414141414141\",\"lms\":6,\"ots\":3,\
    \"secret\":\"8181818181818181818181818181818181818181818181818181818181818181\",\"rogue\":false}],\
    \"walls\":[{\"wall\":1,\"owner\":1,\"f\":0,\"depth\":3,\
    \"master\":\"c1c1c1c1c1c1c1c1c1c1c1c1c1c1c1c1c1c1c1c1c1c1c1c1c1c1c1c1c1c1c1c1\",\
    \"private\":\"d1d1d1d1d1d1d1d1d1d1d1d1d1d1d1d1d1d1d1d1d1d1d1d1d1d1d1d1d1d1d1d1\",\
    \"id\":\"e1e1e1e1e1e1e1e1e1e1e1e1e1e1e1e1\",\"ots\":3}],\"phases\":[],\"tamper\":";

// Behind it: no tamper line, or one.
const UNTAMPERED: &[u8] = b"[]}";

const TAMPERED: &[u8] =
    b"[{\"phase\":1,\"session\":1,\"command\":1,\"kind\":\"flip\",\"byte\":0,\"mask\":1}]}";

// What a choice came to: the number of users of a script and its form, or the line of a refusal.
fn told(choice: &Result<Chosen, Unchosen>) -> (usize, &[u8]) {
    match choice {
        Ok(chosen) => match chosen.form {
            Form::Report => (chosen.script.users.len(), b"report"),
            Form::Summary => (chosen.script.users.len(), b"summary"),
        },
        Err(Unchosen::Refused { line }) => (0, line.as_slice()),
        Err(Unchosen::Unread) => (0, b"unread"),
        Err(Unchosen::NoMemory) => (0, b"memory"),
    }
}

// A source that holds a script with this end.
fn source(alloc: Global, end: &[u8], fails: &[u32]) -> Result<MemSource, AllocError> {
    let mut text = FRONT.as_bytes().to_vec(alloc)?;
    text.extend_from_slice(end)?;
    Ok(MemSource::new(text, 100, fails.to_vec(alloc)?))
}

#[test]
fn words_and_source_give_a_script_or_its_refusal(rt: HostRuntime) -> Result<(), Fail> {
    let table = [
        (["run"].as_slice(), UNTAMPERED, 0, (1, b"report".as_slice())),
        (
            ["run", "--number", "1"].as_slice(),
            UNTAMPERED,
            1,
            (8, b"summary".as_slice()),
        ),
        (
            ["go"].as_slice(),
            UNTAMPERED,
            1,
            (0, b"refused words\n".as_slice()),
        ),
        (
            ["run"].as_slice(),
            b"".as_slice(),
            0,
            (0, b"refused script NotJson\n".as_slice()),
        ),
        (
            ["run"].as_slice(),
            TAMPERED,
            0,
            (0, b"refused script Field tamper\n".as_slice()),
        ),
        (["run"].as_slice(), UNTAMPERED, 2, (0, b"unread".as_slice())),
    ];
    for (words, end, fails, wanted) in table {
        let mut source = source(rt.alloc(), end, &[fails])?;
        let choice = choose(rt.alloc(), words, &mut source);
        assert_eq!(rt; told(&choice), wanted);
    }
    Ok(())
}
