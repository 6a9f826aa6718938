ghost use Rattle.op_types.specs.Kinds.{is_change};
ghost use Rattle.std.specs.Prelude.{◌≡◌, ◌≤◌, true};

use fr_bytes::NoMemory;
use fr_digest::Dig;
use key_graph::{KeyBook, KeyChange, KeyTree, PlanRefusal};
use op_types::{Kind, READER, Wraps};
use std::alloc::{AllocError, Global};
use std::string::String;
use std::test::Fail;

// A tree, with the books of users 2, 3 and 5.
#[derive(Drop)]
struct Family {
    tree: KeyTree,
    second: KeyBook,
    third: KeyBook,
    fifth: KeyBook,
}

fn leaf(user: u32) -> Dig {
    [user.to_be_bytes()[3]; 32]
}

fn make(alloc: Global, depth: u8) -> Result<Family, NoMemory>
    requires { (1 ≤ depth) × (depth ≤ 6) }
{
    Ok(Family {
        tree: KeyTree::make(alloc, 1, depth, [0xc1; 32])?,
        second: KeyBook::make(alloc, 1, depth, 2, leaf(2))?,
        third: KeyBook::make(alloc, 1, depth, 3, leaf(3))?,
        fifth: KeyBook::make(alloc, 1, depth, 5, leaf(5))?,
    })
}

// The slot, and the children of the wraps in their order.
fn words(alloc: Global, slot: u8, wraps: &Wraps) -> Result<String, AllocError> {
    let mut text = format!(in alloc; "slot {slot} children")?;
    for wrap in wraps.as_slice() {
        let child = wrap.child;
        text.push_str(format!(in alloc; " {child}")?.as_str())?;
    }
    Ok(text)
}

fn cause(refusal: PlanRefusal) -> &'static str {
    match refusal {
        PlanRefusal::AlreadyIn => "AlreadyIn",
        PlanRefusal::NotIn => "NotIn",
        PlanRefusal::NoSlot => "NoSlot",
        PlanRefusal::NoMemory => "NoMemory",
    }
}

impl Family {
    // Lets the books learn a change.
    fn learn(&mut self, gen_: u32, kind: &Kind) -> Result<(), NoMemory>
        requires { is_change kind.now ≡ true }
    {
        self.second.learn(gen_, kind)?;
        self.third.learn(gen_, kind)?;
        self.fifth.learn(gen_, kind)
    }

    // Follows a planned change.
    fn follow(
        &mut self,
        gen_: u32,
        change: KeyChange,
        slot: u8,
        wraps: Wraps,
    ) -> Result<bool, NoMemory> {
        let fits = self.tree.follow(gen_, change, slot)?;
        let kind = match change {
            KeyChange::Admit { user, .. } => Kind::Admit {
                user,
                role: READER,
                slot,
                wraps,
            },
            KeyChange::Remove { user } => Kind::Remove { user, slot, wraps },
        };
        self.learn(gen_, &kind)?;
        Ok(fits)
    }

    // Plans a change, follows it where it is planned, and tells it.
    fn step(&mut self, alloc: Global, gen_: u32, change: KeyChange) -> Result<String, Fail> {
        match self.tree.plan(gen_, change) {
            Ok((slot, wraps)) => {
                let text = words(alloc, slot, &wraps)?;
                let fits = self.follow(gen_, change, slot, wraps)?;
                Ok(if fits { text } else { String::new(alloc) })
            }
            Err(refusal) => Ok(String::from_str(alloc, cause(refusal))?),
        }
    }

    // For each of the epochs 0 to 6: `=` where the book has the tree's root key, `-` where it has none.
    fn held(&self, book: &KeyBook) -> [u8; 7] {
        let mut marks = [b'!'; 7];
        for epoch in 0..7usize {
            let found = book.root_key(epoch as u64);
            if found.is_none() {
                marks[epoch] = b'-';
            } else if found == self.tree.root_key(epoch as u64) {
                marks[epoch] = b'=';
            }
        }
        marks
    }
}

fn admit(user: u32) -> KeyChange {
    KeyChange::Admit {
        user,
        leaf: leaf(user),
    }
}

#[test]
fn two_slots_take_two_members(rt: HostRuntime) -> Result<(), Fail> {
    let mut all = make(rt.alloc(), 1)?;
    let steps = [
        (1, 2, "slot 0 children 2"),
        (2, 3, "slot 1 children 2 3"),
        (3, 4, "NoSlot"),
        (3, 3, "AlreadyIn"),
    ];
    for (gen_, user, wanted) in steps {
        assert_eq!(rt; all.step(rt.alloc(), gen_, admit(user))?.as_str(), wanted);
    }
    Ok(())
}

// The steps of a tree of depth 3: generation, whether a user is admitted or removed, and what is planned.
const STEPS: [(u32, bool, u32, &str); 7] = [
    (1, true, 2, "slot 0 children 8 4 2"),
    (2, true, 3, "slot 1 children 8 9 4 2"),
    (3, true, 4, "slot 2 children 10 4 5 2"),
    (4, false, 2, "slot 0 children 9 4 5 2"),
    (5, false, 2, "NotIn"),
    (6, true, 5, "slot 0 children 8 9 4 5 2"),
    (7, false, 4, "slot 2 children 4 2"),
];

#[test]
fn books_hold_the_root_keys_of_membership(rt: HostRuntime) -> Result<(), Fail> {
    let mut all = make(rt.alloc(), 3)?;
    for (gen_, admits, user, wanted) in STEPS {
        let change = if admits {
            admit(user)
        } else {
            KeyChange::Remove { user }
        };
        assert_eq!(rt; all.step(rt.alloc(), gen_, change)?.as_str(), wanted);
    }
    let found = [
        all.held(&all.second),
        all.held(&all.third),
        all.held(&all.fifth),
    ];
    assert_eq!(rt; found, [*b"-===---", *b"--=====", *b"-----=="]);
    Ok(())
}
