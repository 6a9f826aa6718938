use crate::clashes::clash_of_tree;
use crate::words::{is_tree, texts_at, tree_of};
use fr_digest::{Dig, Digester, Sha, Short};
use hist_proof::{DigestedTree, Pruned, cut, digest_at, fits, leaf_at};
use serde_json::Value;
use std::alloc::Global;
use vector_cases::{
    CaseFault, Cases, dig_at, dig_or_null, field, flag_at, is_bytes_or_null, list_at, number_at,
    word_at,
};

/// Pruned trees, each beside a size.
#[derive(Drop)]
pub struct Trees;

impl Cases for Trees {
    fn is_same(&mut self, alloc: Global, case: &Value) -> Result<bool, CaseFault> {
        match word_at(case, "digest")? {
            "sha" => is_same_tree::<Sha>(alloc, case),
            "short" => is_same_tree::<Short>(alloc, case),
            _ => Err(CaseFault::NoValue("the name of a digest")),
        }
    }
}

/// The digest of what a tree stands for, of any size or of none.
fn digest<D: Digester>(tree: &Pruned) -> Dig {
    match tree {
        Pruned::Hidden(digest) => *digest,
        Pruned::Leaf(text) => D::tagged(0, &[], text.as_slice()),
        Pruned::Node(left, right) => D::tagged(1, &digest::<D>(left), &digest::<D>(right)),
        Pruned::Single(left) => D::tagged(1, &[], &digest::<D>(left)),
    }
}

/// What a list of a case tells of each version or position.
#[derive(Clone, Copy)]
enum Told {
    Root,
    Cut,
    Text,
}

/// A tree beside a size, and the same with its digests where it fits the size.
#[derive(Drop)]
struct Sized<D: Digester> {
    tree: Pruned,
    size: u64,
    kept: Option<DigestedTree<D>>,
}

impl<D: Digester> Sized<D> {
    fn root(&self, v: u64) -> Option<Dig> {
        match &self.kept {
            Some(kept) => kept.digest_at(v),
            None => None,
        }
    }

    fn is_root(&self, v: u64, wanted: &Value) -> Result<bool, CaseFault> {
        let wanted = dig_or_null(wanted)?;
        Ok(self.root(v) == wanted && digest_at::<D>(&self.tree, self.size, v) == wanted)
    }

    fn is_cut(&self, alloc: Global, v: u64, wanted: &Value) -> Result<bool, CaseFault> {
        let front = cut(alloc, &self.tree, self.size, v)?;
        is_tree(alloc, front, wanted)
    }

    fn is_text(&self, alloc: Global, k: u64, wanted: &Value) -> Result<bool, CaseFault> {
        is_bytes_or_null(alloc, leaf_at(&self.tree, self.size, k), wanted)
    }

    fn is_told(
        &self,
        alloc: Global,
        told: Told,
        v: u64,
        wanted: &Value,
    ) -> Result<bool, CaseFault> {
        match told {
            Told::Root => self.is_root(v, wanted),
            Told::Cut => self.is_cut(alloc, v, wanted),
            Told::Text => self.is_text(alloc, v, wanted),
        }
    }

    fn are_told(&self, alloc: Global, told: Told, wanted: &[Value]) -> Result<bool, CaseFault> {
        for (v, wanted) in wanted.iter().enumerate() {
            if !self.is_told(alloc, told, v as u64, wanted)? {
                return Ok(false);
            }
        }
        Ok(true)
    }

    fn is_digest(&self, wanted: &Dig) -> bool {
        let kept = match &self.kept {
            Some(kept) => kept.digest(),
            None => *wanted,
        };
        kept == *wanted && digest::<D>(&self.tree) == *wanted
    }

    /// Whether the tree prunes a case's list.
    fn prunes(&self, alloc: Global, case: &Value) -> Result<bool, CaseFault> {
        let texts = texts_at(alloc, case, "texts")?;
        let Some(kept) = &self.kept else {
            return Ok(false);
        };
        Ok(matches!(&clash_of_tree(alloc, kept, &texts)?, Some(None)))
    }

    /// Whether the tree prunes a case's list exactly where the case says so.
    fn prunes_so(&self, alloc: Global, case: &Value) -> Result<bool, CaseFault> {
        Ok(self.prunes(alloc, case)? == flag_at(case, "prunes")?)
    }

    /// Whether the tree gives what a case of a small size tells.
    fn gives(&self, alloc: Global, case: &Value) -> Result<bool, CaseFault> {
        Ok(
            self.is_digest(&dig_at(case, "digest_of")?)
                && self.are_told(alloc, Told::Root, list_at(case, "at")?)?
                && self.are_told(alloc, Told::Cut, list_at(case, "cut")?)?
                && self.are_told(alloc, Told::Text, list_at(case, "leaf")?)?,
        )
    }
}

/// The tree beside the size, where the bytes spell one.
fn sized_at<D: Digester>(alloc: Global, case: &Value) -> Result<Option<Sized<D>>, CaseFault> {
    let bytes = field(case, "tree")?;
    let size = number_at(case, "size")?;
    let (Some(tree), Some(twin)) = (tree_of(alloc, bytes)?, tree_of(alloc, bytes)?) else {
        return Ok(None);
    };
    let kept = DigestedTree::new(alloc, twin, size)?;
    Ok(Some(Sized { tree, size, kept }))
}

/// Whether a case tells more than whether the tree fits the size.
fn is_small(case: &Value) -> bool {
    for name in ["prunes", "digest_of", "at", "cut", "leaf"] {
        if case.get(name).is_some() {
            return true;
        }
    }
    false
}

fn is_same_tree<D: Digester>(alloc: Global, case: &Value) -> Result<bool, CaseFault> {
    let Some(sized) = sized_at::<D>(alloc, case)? else {
        return Ok(false);
    };
    let fit = flag_at(case, "fits")?;
    if fits(&sized.tree, sized.size) != fit || sized.kept.is_some() != fit {
        return Ok(false);
    }
    if !is_small(case) {
        return Ok(true);
    }
    Ok(sized.prunes_so(alloc, case)? && sized.gives(alloc, case)?)
}
