//! The layout of a route: a chain of links as the places that it visits, over ways alone.
ghost use Rattle.std.specs.Prelude.{◌<◌};
ghost use Rattle.hierarchy.specs.Layouts.{lay_by, laid as laid_over};
ghost use Rattle.levelling.specs.Halves.{MiddlesNear};
ghost use Rattle.levelling.specs.Meaning.{meaning};
ghost use Rattle.routing.specs.Divided.{Divided};
ghost use Rattle.routing.specs.Placed.{places_of, Appended, LaidOut, Near};

use crate::laid::Laid;
use cost::Cost;
use levelling::{Book, Full};

/// The places of a chain laid out, if they are at most 256.
pub fn lay_out<C: Cost>(book: &Book<C>, chain: &[usize]) -> Result<Laid, Full>
    requires near { Near chain.now }
    requires middles { MiddlesNear (meaning C.Cost book.now).shortcuts }
    ensures { LaidOut result (laid_over (meaning C.Cost book.now) chain.now) }
{
    DividedBook { book }.lay_out(chain)
}

/// A book of which every shortcut is divided at a place below 256, so that its links can be laid out.
#[derive(Drop)]
pub(crate) struct DividedBook<'a, C> {
    pub(crate) book: &'a Book<C>,
    ghost middles: { Divided book.now },
}

impl<'a, C: Cost> DividedBook<'a, C> {
    // As the function `lay_out`.
    pub(crate) fn lay_out(&self, chain: &[usize]) -> Result<Laid, Full>
        requires { Near chain.now }
        ensures { LaidOut result (laid_over (meaning C.Cost self.now.book.now) chain.now) }
    {
        let mut laid = Laid::none();
        self.lay_chain(&mut laid, chain)?;
        Ok(laid)
    }

    // Appends the places of a chain laid out.
    fn lay_chain(&self, laid: &mut Laid, chain: &[usize]) -> Result<(), Full>
        requires { Near chain.now }
        ensures { Appended result (places_of laid.old) (laid_over (meaning C.Cost self.now.book.now) chain.now) (places_of laid.new) }
    {
        let Some((first, rest)) = chain.split_first() else {
            return Ok(());
        };
        laid.append(*first)?;
        let all = self.book.count();
        let mut from = *first;
        for to in rest {
            self.lay(laid, from, *to, all)?;
            from = *to;
        }
        Ok(())
    }

    // Appends the places that follow `from` on a link, by the first `before` shortcuts.
    fn lay(&self, laid: &mut Laid, from: usize, to: usize, before: usize) -> Result<(), Full>
        requires ends { (from < 256) × (to < 256) }
        ensures { Appended result (places_of laid.old) (lay_by (meaning C.Cost self.now.book.now) before from to) (places_of laid.new) }
    {
        let Some(halves) = self.book.halves(from, to, before) else {
            return laid.append(to);
        };
        // Each half is laid out by earlier shortcuts, so this ends.
        self.lay(laid, from, halves.middle, halves.number)?;
        self.lay(laid, halves.middle, to, halves.number)
    }
}
