use fr_bytes::{Bytes, NoMemory, Sequence};
use script_form::{AuditLine, CommandEnd, KeysEnd, Outcome, Outcomes, Shown, ShownKind};
use std::alloc::Global;
use std::fmt::Write;

/// How many commands a user has.
pub const EACH: u32 = 1_024;

/// How many bytes a post has.
const POST_BYTES: usize = 1_024;

/// How many bytes the script has.
const SCRIPT_BYTES: usize = 4_194_304;

/// A script of two users and one wall, up to its sessions.
const BEGIN: &str = "\
{\"format\":1,\"digest\":\"sha\",\"users\":[{\"user\":1,\"private\":\"\
0101010101010101010101010101010101010101010101010101010101010101\",\"id\":\"41414141414141414141414141414141\",\
\"lms\":6,\"ots\":3,\"secret\":\"8181818181818181818181818181818181818181818181818181818181818181\",\
\"rogue\":false},{\"user\":2,\"private\":\"0202020202020202020202020202020202020202020202020202020202020202\",\
\"id\":\"42424242424242424242424242424242\",\"lms\":6,\"ots\":3,\"secret\":\"\
8282828282828282828282828282828282828282828282828282828282828282\",\"rogue\":false}],\"walls\":[{\"wall\":1,\
\"owner\":1,\"f\":0,\"depth\":3,\"master\":\"c1c1c1c1c1c1c1c1c1c1c1c1c1c1c1c1c1c1c1c1c1c1c1c1c1c1c1c1c1c1c1c1\",\
\"private\":\"d1d1d1d1d1d1d1d1d1d1d1d1d1d1d1d1d1d1d1d1d1d1d1d1d1d1d1d1d1d1d1d1\",\"id\":\"\
e1e1e1e1e1e1e1e1e1e1e1e1e1e1e1e1\",\"ots\":3}],\"phases\":[[";

/// What ends the sessions, up to the users of a line that serves them a branch.
const SERVE: &str =
    "]],\"tamper\":[{\"kind\":\"serve\",\"phase\":1,\"wall\":1,\"branch\":1,\"users\":[1";

const END: &str = "]}]}";

// ---- the script

/// A text as long as a post's may be.
fn long_text(alloc: Global) -> Result<Vec<u8>, NoMemory> {
    Ok(vec![in alloc; b'a'; POST_BYTES]?)
}

fn post(alloc: Global) -> Result<Vec<u8>, NoMemory> {
    let mut post = Vec::from_slice(alloc, b"{\"do\":\"post\",\"wall\":1,\"text\":\"")?;
    post.extend_from_slice(&long_text(alloc)?)?;
    post.extend_from_slice(b"\"}")?;
    Ok(post)
}

/// The posts of a user, behind what stands before them.
fn put_session(text: &mut Vec<u8>, before: &str, post: &[u8]) -> Result<(), NoMemory> {
    text.extend_from_slice(before.as_bytes())?;
    for i in 0..EACH {
        if i > 0 {
            text.push(b',')?;
        }
        text.extend_from_slice(post)?;
    }
    text.extend_from_slice(b"]}")?;
    Ok(())
}

/// So many numbers of users, each behind a comma.
fn put_numbers(text: &mut Vec<u8>, count: usize) -> Result<(), NoMemory> {
    for _ in 0..count {
        text.extend_from_slice(b",1")?;
    }
    Ok(())
}

/// The posts of two users, then a line with as many numbers as there is room for.
pub fn made_script(alloc: Global) -> Result<Vec<u8>, NoMemory> {
    let post = post(alloc)?;
    let mut text = Vec::from_slice(alloc, BEGIN.as_bytes())?;
    put_session(&mut text, "{\"user\":1,\"do\":[", &post)?;
    put_session(&mut text, ",{\"user\":2,\"do\":[", &post)?;
    put_line(&mut text)?;
    Ok(text)
}

fn put_line(text: &mut Vec<u8>) -> Result<(), NoMemory> {
    text.extend_from_slice(SERVE.as_bytes())?;
    let room = SCRIPT_BYTES
        .saturating_sub(text.len())
        .saturating_sub(END.len());
    put_numbers(text, room / 2)?;
    text.extend_from_slice(END.as_bytes())?;
    text.resize(SCRIPT_BYTES, b' ')?;
    Ok(())
}

// ---- a run

/// A command that was accepted and shows its own post.
fn outcome(alloc: Global, session: u32, command: u32) -> Result<Outcome, NoMemory> {
    let shown = Shown {
        position: u64::from(command),
        author: session,
        what: ShownKind::Post {
            body: Bytes::of(long_text(alloc)?),
        },
    };
    Ok(Outcome {
        phase: 1,
        session,
        command,
        end: CommandEnd::Accepted { size: 1, from: 0 },
        shown: Sequence::of(Vec::from_array(alloc, [shown])?),
        keys: KeysEnd::Fine,
    })
}

/// What a run of so many of each user's commands came to.
pub fn made_run(alloc: Global, each: u32) -> Result<Outcomes, NoMemory> {
    let mut commands = Vec::new(alloc);
    for session in [1, 2] {
        for command in 0..each {
            commands.push(outcome(alloc, session, command + 1)?)?;
        }
    }
    Ok(Outcomes {
        commands: Sequence::of(commands),
        walls: Sequence::of(Vec::new(alloc)),
        audit: AuditLine::Sound {
            records: 0,
            grounded: 0,
        },
    })
}
