ghost use Rattle.std.specs.Prelude.{◌≡◌, length, IfOk};

use crate::item::Item;
use dict_treap::Dict;
use fr_bytes::NoMemory;
use fr_digest::Digester;
use hist_tree::Hist;
use op_types::View;
use signed_ops::view_copy;

/// A wall as it stood after some call: its history with the access list after each leaf, the list that it began with,
/// and the server's view of it. Later calls don't change it.
#[derive(Drop)]
pub struct Snapshot<D: Digester> {
    pub(crate) history: Hist<D, Item<D>>,
    pub(crate) opening: Dict<D>,
    pub(crate) view: View,
    pub(crate) f: u32,
}

impl<D: Digester> Snapshot<D> {
    /// The same snapshot, of which no item is copied. `NoMemory` also stands for a refused count of owners.
    pub fn share(&self) -> Result<Snapshot<D>, NoMemory>
        ensures { IfOk result (λ same. same ≡ self.now) }
    {
        Ok(Snapshot {
            history: self.history.share()?,
            opening: self.opening.share()?,
            view: view_copy(&self.view)?,
            f: self.f,
        })
    }

    /// How many leaves the wall had. Takes no memory.
    pub fn size(&self) -> u64
        ensures { result ≡ length self.now.history }
    {
        self.history.size()
    }

    /// The leaves, each with its text and the access list after it. Takes no memory.
    pub fn history(&self) -> &Hist<D, Item<D>>
        ensures { result.now ≡ self.now.history }
    {
        &self.history
    }

    /// The access list that the wall began with. Takes no memory.
    pub fn opening(&self) -> &Dict<D>
        ensures { result.now ≡ self.now.opening }
    {
        &self.opening
    }

    /// The server's view of these leaves: of nothing, and unsigned, where there are none. Takes no memory.
    pub fn view(&self) -> &View
        ensures { result.now ≡ self.now.view }
    {
        &self.view
    }

    /// How many of the wall's writers may be false, at most. Takes no memory.
    pub fn f(&self) -> u32
        ensures { result ≡ self.now.f }
    {
        self.f
    }
}
