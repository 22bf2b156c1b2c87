//! The pages of a shelf, each of which is shared until it is changed.
ghost use Rattle.std.specs.Prelude.{◌≡◌, ℕ, ◌<◌, ◌==◌, [], length, slice_index_or, if◌then◌else◌, OnOk, OnErr, IfOk};
ghost use Rattle.piece_shelf.specs.Shelves.{slot_of};

use crate::page::Page;
use cal_base::{Copies, NoMemory, Shared, SharedList};
use cal_model::Piece;
use std::alloc::Global;
use std::marker::Model;

/// The most slots of a page.
const SLOTS: u64 = 256;

/// Pages one behind another. Where there is no page, there are no pieces.
#[derive(Drop)]
pub(crate) struct Pages {
    pages: Vec<Shared<Page>>,
}

impl Model for Pages {
    ghost use Rattle.std.specs.Prelude.{List};
    ghost use Rattle.cal_model.specs.declared.piece.Piece.{Piece};

    ghost Value = { List (List (List Piece)) };

    ghost view = { λ p. p.pages.items };
}

/// Makes empty pages up to a place and at it. Without memory there may be fewer.
fn fill(alloc: Global, pages: &mut Vec<Shared<Page>>, at: usize) -> Result<(), NoMemory>
    ensures there { OnOk result (at < length pages.new.items) }
    ensures same { (k : ℕ) → slice_index_or pages.new.items k [] ≡ slice_index_or pages.old.items k [] }
{
    'pages: while pages.len() <= at {
        let page = Shared::new(alloc, Page::new(alloc))?;
        if pages.push(page).is_err() {
            return Err(NoMemory);
        }
    }
    Ok(())
}

/// A look at each page.
fn look_at_each(alloc: Global, pages: &[Shared<Page>]) -> Result<Vec<Shared<Page>>, NoMemory>
    ensures { IfOk result (λ looks. looks.items ≡ pages.now) }
{
    let mut looks = Vec::new(alloc);
    if looks.reserve(pages.len()).is_err() {
        return Err(NoMemory);
    }
    'pages: for page in pages {
        if looks.push(page.look()?).is_err() {
            return Err(NoMemory);
        }
    }
    Ok(looks)
}

/// Writes the pieces of a slot anew in a page, which is copied where looks share it.
fn set_in(
    alloc: Global,
    page: &mut Shared<Page>,
    at: usize,
    pieces: SharedList<Piece>,
) -> Result<(), NoMemory>
    ensures ok { OnOk result ((k : ℕ) → slice_index_or page.new k [] ≡ (if k == at then pieces else slice_index_or page.old k [])) }
    ensures err { OnErr result ((k : ℕ) → slice_index_or page.new k [] ≡ slice_index_or page.old k []) }
{
    match page.make_own(alloc) {
        Ok(own) => own.set(at, pieces),
        Err(NoMemory) => Err(NoMemory),
    }
}

impl Pages {
    /// No pages. It takes no memory yet.
    pub(crate) fn new(alloc: Global) -> Pages
        ensures { result ≡ [] }
    {
        Pages {
            pages: Vec::new(alloc),
        }
    }

    /// The pieces of an object.
    pub(crate) fn get(&self, origin: u64) -> &[Piece]
        ensures { result.now ≡ slot_of self.now origin }
    {
        match self.pages.get((origin / SLOTS) as usize) {
            Some(page) => page.get((origin % SLOTS) as usize),
            None => &[],
        }
    }

    /// Writes the pieces of an object anew, in its page alone.
    pub(crate) fn set(
        &mut self,
        alloc: Global,
        origin: u64,
        pieces: SharedList<Piece>,
    ) -> Result<(), NoMemory>
        ensures ok { OnOk result ((o : ℕ) → slot_of self.new o ≡ (if o == origin then pieces else slot_of self.old o)) }
        ensures err { OnErr result ((o : ℕ) → slot_of self.new o ≡ slot_of self.old o) }
    {
        let at = (origin / SLOTS) as usize;
        fill(alloc, &mut self.pages, at)?;
        set_in(
            alloc,
            &mut self.pages[at],
            (origin % SLOTS) as usize,
            pieces,
        )
    }
}

impl Copies for Pages {
    fn copied(&self, alloc: Global) -> Result<Pages, NoMemory> {
        let pages = look_at_each(alloc, &self.pages)?;
        Ok(Pages { pages })
    }
}
