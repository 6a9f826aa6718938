use crate::words::{texts_at, tree_of};
use fr_bytes::Texts;
use fr_digest::{Clash, Digester, Short};
use hist_proof::DigestedTree;
use serde_json::Value;
use std::alloc::Global;
use tree_extract::{hist_clash, list_clash};
use tree_model::root_at;
use vector_cases::{CaseFault, Cases, bytes_of, field, list_of, number_at};

/// Trees and lists beside a list of the same root under the short digest.
#[derive(Drop)]
pub struct Clashes;

impl Cases for Clashes {
    fn is_same(&mut self, alloc: Global, case: &Value) -> Result<bool, CaseFault> {
        let texts = texts_at(alloc, case, "texts")?;
        let others = texts_at(alloc, case, "others")?;
        Ok(
            is_tree_clash(alloc, &texts, case)?
                && is_list_clash(alloc, &others, &texts, field(case, "list_clash")?)?,
        )
    }
}

/// The clash of a tree and a list, where both have one length and one root.
pub fn clash_of_tree<D: Digester>(
    alloc: Global,
    tree: &DigestedTree<D>,
    texts: &Texts,
) -> Result<Option<Option<Clash<D>>>, CaseFault> {
    let size = tree.size();
    if size == 0 || texts.len() as u64 != size {
        return Ok(None);
    }
    if tree.digest() != root_at::<D>(texts, size) {
        return Ok(None);
    }
    Ok(Some(hist_clash::<D>(alloc, tree.tree(), size, texts)?))
}

/// Whether the value tells the clash: its two strings, and `null` where there is none.
fn is_clash(alloc: Global, found: &Option<Clash<Short>>, value: &Value) -> Result<bool, CaseFault> {
    let Some(clash) = found else {
        return Ok(value.is_null());
    };
    if value.is_null() {
        return Ok(false);
    }
    let [a, b] = list_of(value)? else {
        return Err(CaseFault::NoValue("two strings"));
    };
    Ok(bytes_of(alloc, a)?.as_slice() == clash.a() && bytes_of(alloc, b)?.as_slice() == clash.b())
}

fn is_tree_clash(alloc: Global, texts: &Texts, case: &Value) -> Result<bool, CaseFault> {
    let Some(tree) = tree_of(alloc, field(case, "tree")?)? else {
        return Ok(false);
    };
    let size = number_at(case, "size")?;
    let Some(tree) = DigestedTree::<Short>::new(alloc, tree, size)? else {
        return Ok(false);
    };
    match clash_of_tree(alloc, &tree, texts)? {
        Some(clash) => is_clash(alloc, &clash, field(case, "hist_clash")?),
        None => Ok(false),
    }
}

fn is_list_clash(
    alloc: Global,
    others: &Texts,
    texts: &Texts,
    wanted: &Value,
) -> Result<bool, CaseFault> {
    let size = texts.len() as u64;
    if size == 0 || others.len() != texts.len() {
        return Ok(false);
    }
    if root_at::<Short>(others, size) != root_at::<Short>(texts, size) {
        return Ok(false);
    }
    let clash = list_clash::<Short>(alloc, others, texts)?;
    is_clash(alloc, &clash, wanted)
}
