use fr_bytes::{Bytes, NoMemory};
use script_form::{Script, generated, read_script, refusal_line};
use std::alloc::Global;
use std::test::Fail;

/// A script of one user, whose key signs 1,024 messages, and one wall, up to its phases.
const BEGIN: &str = "\
{\"format\":1,\"digest\":\"sha\",\"users\":[{\"user\":1,\"private\":\"010101010101010101010101010101\
0101010101010101010101010101010101\",\"id\":\"41414141414141414141414141414141\",\"lms\":6,\"ots\":3\
,\"secret\":\"8181818181818181818181818181818181818181818181818181818181818181\",\"rogue\":false}],\"\
walls\":[{\"wall\":1,\"owner\":1,\"f\":0,\"depth\":3,\"master\":\"c1c1c1c1c1c1c1c1c1c1c1c1c1c1c1c1c1\
c1c1c1c1c1c1c1c1c1c1c1c1c1c1c1\",\"private\":\"d1d1d1d1d1d1d1d1d1d1d1d1d1d1d1d1d1d1d1d1d1d1d1d1d1d1d\
1d1d1d1d1d1\",\"id\":\"e1e1e1e1e1e1e1e1e1e1e1e1e1e1e1e1\",\"ots\":3}],";

/// One session of user 1, up to its commands, and what ends the script.
const SESSION: &str = "\"phases\":[[{\"user\":1,\"do\":[";

const END: &str = "]}]],\"tamper\":[]}";

const READ: &str = "{\"do\":\"read\",\"wall\":1}";

const POST: &str = "{\"do\":\"post\",\"wall\":1,\"text\":\"\"}";

/// The script with so many equal commands.
fn repeated(alloc: Global, command: &str, count: u32) -> Result<String, NoMemory> {
    let mut text = String::from_str(alloc, BEGIN)?;
    text.push_str(SESSION)?;
    for i in 0..count {
        if i > 0 {
            text.push(',')?;
        }
        text.push_str(command)?;
    }
    text.push_str(END)?;
    Ok(text)
}

/// `ok`, or the line that is written where the script is refused.
fn answer(alloc: Global, script: &[u8]) -> Result<Bytes, NoMemory> {
    match read_script(alloc, script) {
        Ok(_) => Ok(Bytes::of(Vec::from_slice(alloc, b"ok")?)),
        Err(refusal) => Ok(refusal_line(alloc, &refusal)?),
    }
}

#[test]
fn commands_and_writes_have_a_limit(rt: HostRuntime) -> Result<(), Fail> {
    let alloc = rt.alloc();
    for (command, count, wanted) in [
        (READ, 2048, "ok"),
        (READ, 2049, "refused script Limit commands\n"),
        (POST, 1024, "ok"),
        (POST, 1025, "refused script TooManyWrites 1\n"),
        (POST, 2049, "refused script Limit commands\n"),
    ] {
        let script = repeated(alloc, command, count)?;
        assert_eq!(rt;
            answer(alloc, script.as_bytes())?.as_slice(),
            wanted.as_bytes()
        );
    }
    Ok(())
}

/// Spaces up to so many bytes behind the text.
fn padded(alloc: Global, text: &str, bytes: usize) -> Result<Vec<u8>, NoMemory> {
    let mut script = Vec::from_slice(alloc, text.as_bytes())?;
    script.resize(bytes, b' ')?;
    Ok(script)
}

#[test]
fn bytes_have_a_limit(rt: HostRuntime) -> Result<(), Fail> {
    let alloc = rt.alloc();
    let whole = repeated(alloc, READ, 1)?;
    for (text, bytes, wanted) in [
        (whole.as_str(), 4_194_304, "ok"),
        (whole.as_str(), 4_194_305, "refused script Limit script\n"),
        ("", 4_194_304, "refused script NotJson\n"),
        ("", 4_194_305, "refused script Limit script\n"),
    ] {
        let script = padded(alloc, text, bytes)?;
        assert_eq!(rt; answer(alloc, &script)?.as_slice(), wanted.as_bytes());
    }
    Ok(())
}

/// Lists in one another.
fn nested(alloc: Global, levels: u32) -> Result<String, NoMemory> {
    let mut text = String::new(alloc);
    for _ in 0..levels {
        text.push('[')?;
    }
    for _ in 0..levels {
        text.push(']')?;
    }
    Ok(text)
}

#[test]
fn lists_nest_to_a_limit(rt: HostRuntime) -> Result<(), Fail> {
    let alloc = rt.alloc();
    for (levels, wanted) in [
        (127, "refused script Field script\n"),
        (128, "refused script NotJson\n"),
    ] {
        let text = nested(alloc, levels)?;
        assert_eq!(rt;
            answer(alloc, text.as_bytes())?.as_slice(),
            wanted.as_bytes()
        );
    }
    Ok(())
}

/// The script of one command with a further member in front.
fn with_member(alloc: Global, member: &str) -> Result<String, NoMemory> {
    let whole = repeated(alloc, READ, 1)?;
    let mut text = String::from_str(alloc, "{")?;
    text.push_str(member)?;
    text.push_str(whole.as_str().strip_prefix("{").unwrap_or(""))?;
    Ok(text)
}

#[test]
fn a_repeated_key_counts_once_with_its_last_value(rt: HostRuntime) -> Result<(), Fail> {
    let alloc = rt.alloc();
    for (member, wanted) in [
        ("\"format\":2,", "ok"),
        ("\"format\":1,\"digest\":7,", "ok"),
        ("\"format\":1,\"other\":7,", "refused script Field extra\n"),
    ] {
        let text = with_member(alloc, member)?;
        assert_eq!(rt;
            answer(alloc, text.as_bytes())?.as_slice(),
            wanted.as_bytes()
        );
    }
    Ok(())
}

/// How many commands and phases a script has.
fn sizes(script: &Script) -> (usize, usize) {
    let mut commands = 0usize;
    for phase in script.phases.as_slice() {
        for session in phase.as_slice() {
            commands = commands.saturating_add(session.commands.len());
        }
    }
    (commands, script.phases.len())
}

/// The private bytes of the last user, and the identifier of the last wall, in hexadecimal.
fn keys(alloc: Global, script: &Script) -> Result<(String, String), NoMemory> {
    let user = script.users.as_slice().last().map(|user| user.private);
    let wall = script.walls.as_slice().last().map(|wall| wall.id);
    Ok((
        hex::encode(alloc, user.unwrap_or([0; 32]))?,
        hex::encode(alloc, wall.unwrap_or([0; 16]))?,
    ))
}

#[test]
fn generated_scripts_have_their_keys(rt: HostRuntime) -> Result<(), Fail> {
    let alloc = rt.alloc();
    for (number, private, id) in [
        (
            0,
            "f97a1739bb68fab9f5db50b284d7601ee027183a67cc77d8331c71643b0b7bd0",
            "b6546ed3bb93b3fa65bac03ccc9dbc43",
        ),
        (
            1,
            "a160c6a820e43444d5ce08d099cfc8613d02147729fa30b9ec9d4a62cc602046",
            "a09458cb8ead8763a3da469adf2dba73",
        ),
        (
            4294967295,
            "8193ddaa929cb8f3d4691ab3677f6acd613c0d68b2674049c4dcd7eda8623374",
            "37caa0ca0fafbe438fe72c09ddbed7f3",
        ),
    ] {
        let script = generated(alloc, number)?;
        let (user, wall) = keys(alloc, &script)?;
        assert_eq!(rt;
            (user.as_str() == private, wall.as_str() == id),
            (true, true)
        );
        assert_eq!(rt; sizes(&script), (646, 28));
    }
    Ok(())
}
