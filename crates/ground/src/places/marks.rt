//! Shutting and clearing places.
ghost use Rattle.std.specs.Prelude.{◌≡◌, min, cond, false};
ghost use Rattle.ground.specs.Shutting.{Marked, refuses_shut, refuses_clear, with_place, without_place};
ghost use Rattle.ground.specs.declared.refusal.Refusal.{Refusal};
ghost use Rattle.ground.specs.Marks.{size_in, shut_in, free_in};

use super::Places;
use crate::Refusal;
use arrayvec::ArrayVec;

impl Places {
    /// That many places, but at most 256, all free.
    pub fn all_free(size: usize) -> Places
        ensures size { size_in result ≡ min size 256 }
        ensures shut { shut_in result ≡ (λ k. false) }
    {
        let mut shut = ArrayVec::from([false; 256]);
        shut.truncate(size);
        Places { shut }
    }

    /// How many places there are.
    pub fn size(&self) -> usize
        ensures { result ≡ size_in self.now }
    {
        self.shut.len()
    }

    /// Whether the place is shut; a place beyond the number of places is not.
    pub fn is_shut(&self, place: usize) -> bool
        ensures { result ≡ shut_in self.now place }
    {
        self.shut.get(place) == Some(&true)
    }

    /// Whether the place is one of them and not shut.
    pub fn is_free(&self, place: usize) -> bool
        ensures { result ≡ free_in self.now place }
    {
        self.shut.get(place) == Some(&false)
    }

    /// Shuts a place. Refused with 9 where it is none of them and with 10 where it is shut.
    pub fn shut(&mut self, place: usize) -> Result<(), Refusal>
        ensures { Marked size_in shut_in (refuses_shut (size_in self.old) (shut_in self.old) place) (with_place place (shut_in self.old)) self.old self.new result }
    {
        self.mark(place, true)
    }

    /// Clears a place. Refused with 9 where it is none of them and with 11 where it is free.
    pub fn clear(&mut self, place: usize) -> Result<(), Refusal>
        ensures { Marked size_in shut_in (refuses_clear (size_in self.old) (shut_in self.old) place) (without_place place (shut_in self.old)) self.old self.new result }
    {
        self.mark(place, false)
    }

    // Shuts or clears a place that is not so yet.
    fn mark(&mut self, place: usize, shut: bool) -> Result<(), Refusal>
        ensures { Marked size_in shut_in (cond shut (refuses_shut (size_in self.old) (shut_in self.old) place) (refuses_clear (size_in self.old) (shut_in self.old) place))
            (cond shut (with_place place (shut_in self.old)) (without_place place (shut_in self.old))) self.old self.new result }
    {
        let Some(mark) = self.shut.get_mut(place) else {
            return Err(Refusal::OffGround { asked: 0 });
        };
        if *mark == shut {
            return Err(already(shut));
        }
        *mark = shut;
        Ok(())
    }
}

fn already(shut: bool) -> Refusal
    ensures { result ≡ cond shut (Refusal.AlreadyShut 0) Refusal.AlreadyFree }
{
    if shut {
        Refusal::AlreadyShut { asked: 0 }
    } else {
        Refusal::AlreadyFree
    }
}
