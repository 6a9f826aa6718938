use anyhow::{Context, Result};
use fr_bytes::{Bytes, NoMemory, put_bytes, put_u8, put_u32, put_u64};
use fr_digest::{Dig, Sha};
use hist_tree::Hist;
use lms_params::pair_of;
use lms_tree::{PublicKey, Signer};
use op_types::tags::{OP_MESSAGE_TAG, POST_TAG};
use op_types::{OWNER, view_message};
use std::alloc::Global;
use tree_model::{Entry, HasText, depth_of, dict_digest};

/// The wall.
pub const WALL: u32 = 1;

/// The user who owns it and makes each of its posts.
pub const USER: u32 = 1;

/// A leaf's text.
#[derive(Drop)]
struct Line {
    text: Bytes,
}

impl HasText for Line {
    ghost text_of = { λ line. line.text };

    fn text(&self) -> &[u8] {
        self.text.as_slice()
    }
}

/// A view's root and signature.
#[derive(Drop)]
struct Seen {
    root: Dig,
    sig: Bytes,
}

/// A reply, and what is needed to check it.
#[derive(Drop)]
pub struct Made {
    /// The bytes of the reply, which shows every position from 0.
    pub reply: Vec<u8>,
    /// The bytes of the operations that it shows.
    pub ops: Vec<Vec<u8>>,
    /// The server's key.
    pub server: PublicKey,
    /// The user's key.
    pub user: PublicKey,
}

// ---- pieces

/// Bytes behind their number.
fn put_piece(out: &mut Vec<u8>, piece: &[u8]) -> Result<()> {
    let count = u32::try_from(piece.len()).ok().context("too long")?;
    put(put_u32(out, count))?;
    put(put_bytes(out, piece))?;
    Ok(())
}

fn put(done: Result<(), NoMemory>) -> Result<()> {
    done.ok().context("memory is wanting")
}

fn signer(alloc: Global, seed: u8) -> Result<Signer> {
    let pair = pair_of(6, 3).context("no pair of the tables")?;
    Signer::make(alloc, &[seed; 32], &[seed; 16], pair)
        .ok()
        .context("no signer was made")
}

fn sign(signer: &mut Signer, message: &[u8]) -> Result<Bytes> {
    signer.sign(message).ok().context("no signature was made")
}

// ---- operations

/// The user's entry after so many posts.
fn entry(next: u32) -> Entry {
    Entry {
        user: USER,
        role: OWNER,
        next,
    }
}

/// What a view says behind its wall: how much it covers, and where that is something, its root and signature.
fn put_seen(out: &mut Vec<u8>, size: u32, seen: &Seen) -> Result<()> {
    put(put_u64(out, u64::from(size)))?;
    if size > 0 {
        put(put_bytes(out, &seen.root))?;
        put_piece(out, seen.sig.as_slice())?;
    }
    Ok(())
}

fn put_head(out: &mut Vec<u8>, number: u32) -> Result<()> {
    put(put_u32(out, WALL))?;
    put(put_u32(out, USER))?;
    put(put_u32(out, number))?;
    put(put_u64(out, 0))?;
    Ok(())
}

/// The post of a number, up to its signature.
fn unsigned(alloc: Global, number: u32, seen: &Seen) -> Result<Vec<u8>> {
    let mut out = Vec::new(alloc);
    put_head(&mut out, number)?;
    put_seen(&mut out, number, seen)?;
    put(put_u8(&mut out, POST_TAG))?;
    put_piece(&mut out, b"t")?;
    Ok(out)
}

/// The post of a number, signed.
fn post(alloc: Global, author: &mut Signer, number: u32, seen: &Seen) -> Result<Vec<u8>> {
    let mut op = unsigned(alloc, number, seen)?;
    let mut message = Vec::from_slice(alloc, &[OP_MESSAGE_TAG])?;
    message.extend_from_slice(&op)?;
    let sig = sign(author, &message)?;
    put_piece(&mut op, sig.as_slice())?;
    Ok(op)
}

/// The leaf of an operation: the digest of the list after it, the epoch, and the operation.
fn leaf(alloc: Global, number: u32, op: &[u8]) -> Result<Vec<u8>> {
    let digest = dict_digest::<Sha>(&[entry(number.wrapping_add(1))]);
    let mut out = Vec::from_slice(alloc, &digest)?;
    put(put_u64(&mut out, 0))?;
    put(put_bytes(&mut out, op))?;
    Ok(out)
}

// ---- the tree

/// The spelling of a tree of this height that shows these texts, all of them.
fn put_tree(out: &mut Vec<u8>, height: u32, texts: &[Vec<u8>]) -> Result<()> {
    if height == 0 {
        return put_leaf(out, texts);
    }
    let half = 1usize << (height - 1).min(20);
    if texts.len() <= half {
        out.push(3)?;
        return put_tree(out, height - 1, texts);
    }
    let (left, right) = texts.split_at(half);
    out.push(2)?;
    put_tree(out, height - 1, left)?;
    put_tree(out, height - 1, right)
}

fn put_leaf(out: &mut Vec<u8>, texts: &[Vec<u8>]) -> Result<()> {
    out.push(1)?;
    let text = texts.first().context("no text")?;
    put_piece(out, text)
}

// ---- the reply

/// The posts so far, as their operations, their leaves' texts and their history, and the server's view of them.
#[derive(Drop)]
struct Posts {
    ops: Vec<Vec<u8>>,
    texts: Vec<Vec<u8>>,
    history: Hist<Sha, Line>,
    seen: Seen,
}

fn no_posts(alloc: Global) -> Posts {
    Posts {
        ops: Vec::new(alloc),
        texts: Vec::new(alloc),
        history: Hist::empty(alloc),
        seen: Seen {
            root: [0; 32],
            sig: Bytes::of(Vec::new(alloc)),
        },
    }
}

/// The history with one text more.
fn grown(alloc: Global, history: &Hist<Sha, Line>, text: &[u8]) -> Result<Hist<Sha, Line>> {
    let line = Line {
        text: Bytes::of(Vec::from_slice(alloc, text)?),
    };
    history.append(line).ok().context("memory is wanting")
}

/// The server's view of a history.
fn view_of(server: &mut Signer, history: &Hist<Sha, Line>) -> Result<Seen> {
    let size = history.size();
    if size == 0 {
        return Err(anyhow::Error::msg("a view of nothing"));
    }
    let root = history.root_at(size);
    let sig = sign(server, &view_message(WALL, size, &root))?;
    Ok(Seen { root, sig })
}

/// The posts with one more, which embeds the view of those before it.
fn with_post(
    alloc: Global,
    posts: Posts,
    number: u32,
    author: &mut Signer,
    server: &mut Signer,
) -> Result<Posts> {
    let Posts {
        mut ops,
        mut texts,
        history,
        seen: before,
    } = posts;
    let op = post(alloc, author, number, &before)?;
    let text = leaf(alloc, number, &op)?;
    let history = grown(alloc, &history, &text)?;
    let view = view_of(server, &history)?;
    ops.push(op)?;
    texts.push(text)?;
    Ok(Posts {
        ops,
        texts,
        history,
        seen: view,
    })
}

/// The pruned list before a post: the owner's entry alone.
fn put_list(out: &mut Vec<u8>, number: u32) -> Result<()> {
    put(put_u32(out, 11))?;
    out.push(1)?;
    put(put_u32(out, USER))?;
    out.push(OWNER)?;
    put(put_u32(out, number))?;
    out.push(0)?;
    Ok(())
}

/// What the reply says in front of its tree.
fn put_view(out: &mut Vec<u8>, size: u32, seen: &Seen) -> Result<()> {
    out.push(0x11)?;
    put(put_u32(out, WALL))?;
    put_seen(out, size, seen)?;
    put(put_u64(out, 0))?;
    Ok(())
}

/// The reply with all posts.
fn reply(alloc: Global, size: u32, posts: &Posts) -> Result<Vec<u8>> {
    let mut tree = Vec::new(alloc);
    put_tree(&mut tree, depth_of(u64::from(size.max(1))), &posts.texts)?;
    let mut out = Vec::new(alloc);
    put_view(&mut out, size, &posts.seen)?;
    put_piece(&mut out, &tree)?;
    for number in 0..size {
        put_list(&mut out, number)?;
    }
    Ok(out)
}

/// A wall of so many posts, at least one and at most 1,024, as a reply shows all of them.
pub fn make_reply(alloc: Global, size: u32) -> Result<Made> {
    let mut author = signer(alloc, 1)?;
    let mut server = signer(alloc, 2)?;
    let mut posts = no_posts(alloc);
    for number in 0..size {
        posts = with_post(alloc, posts, number, &mut author, &mut server)?;
    }
    Ok(Made {
        reply: reply(alloc, size, &posts)?,
        ops: posts.ops,
        server: server.public(),
        user: author.public(),
    })
}
