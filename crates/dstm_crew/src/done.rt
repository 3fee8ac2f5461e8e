ghost use Rattle.std.specs.Prelude.{◌≡◌, ◌+◌, ◌<◌, ◌≤◌, ◌++◌, ◌∷◌, [], Some, IfOk, length, vec_len, vec_capacity};
ghost use Rattle.std.specs.List.{slice_get};
ghost use Rattle.std.specs.Option.{option_map};

use dstm_jobs::Finished;
use dstm_model::Reply;
use std::alloc::{AllocError, Global};
use std::marker::Model;

// A job that was done: its number, its line, and where its replies begin and end among all.
#[derive(Clone, Copy, Debug)]
pub struct Mark {
    number: u64,
    line: u64,
    from: usize,
    to: usize,
}

/// What a worker has done, in order. The replies of all jobs stand one behind another, so that a job takes no more room than
/// its own need. The lines stand here too, so that whoever collects what all have done need not go to the jobs for them.
#[derive(Drop)]
pub struct Done {
    marks: Vec<Mark>,
    replies: Vec<Reply>,
}

impl Model for Done {
    ghost use Rattle.std.specs.Prelude.{vec_capacity};
    ghost use Rattle.dstm_crew.specs.Done.{DoneAs, IsKept, lines_of, told};

    ghost Value = { DoneAs };

    ghost view = { λ done. record {
      items = told done.replies.items done.marks.items;
      lines = lines_of done.marks.items;
      room = vec_capacity done.marks;
    } };

    ghost invariant = { IsKept };
}

impl Done {
    /// Nothing is done yet, and there is room for so many jobs.
    pub fn with_room(alloc: Global, jobs: usize) -> Result<Done, AllocError>
        ensures { IfOk result (λ done. done ≡ record { items = []; lines = []; room = jobs }) }
    {
        let Some(most) = jobs.checked_mul(8) else {
            return Err(AllocError);
        };
        Ok(Done {
            marks: Vec::with_capacity(alloc, jobs)?,
            replies: Vec::with_capacity(alloc, most)?,
        })
    }

    /// One job more was done, which stands at this line.
    pub fn push(&mut self, finished: &Finished, line: u64)
        requires room { length self.old.items < self.old.room }
        ensures { self.new ≡ record self.old {
          items = self.old.items ++ finished.now ∷ [];
          lines = self.old.lines ++ line ∷ [];
        } }
    {
        let from = self.replies.len();
        append(&mut self.replies, finished.replies.as_slice());
        self.marks.push_reserved(Mark {
            number: finished.number,
            line,
            from,
            to: self.replies.len(),
        });
    }

    /// How many jobs were done.
    pub fn len(&self) -> usize
        ensures { result ≡ length self.now.items }
    {
        self.marks.len()
    }

    /// The number of what stands at a place.
    pub fn number(&self, place: usize) -> Option<u64>
        ensures { result ≡ option_map (λ finished. finished.number) (slice_get self.now.items place) }
    {
        let mark = self.marks.get(place)?;
        Some(mark.number)
    }

    /// The line of the job that stands at a place.
    pub fn line(&self, place: usize) -> u64
        requires { place < length self.now.items }
        ensures { slice_get self.now.lines place ≡ Some result }
    {
        let mark = &self.marks[place];
        mark.line
    }

    /// The replies of what stands at a place.
    pub fn replies(&self, place: usize) -> &[Reply]
        requires { place < length self.now.items }
        ensures value { option_map (λ finished. finished.replies) (slice_get self.now.items place) ≡ Some result.now }
        ensures short { length result.now ≤ 8 }
    {
        let mark = &self.marks[place];
        &self.replies[mark.from..mark.to]
    }
}

// Puts replies behind the others. There is room for them.
fn append(all: &mut Vec<Reply>, replies: &[Reply])
    requires { vec_len all.old + length replies.now ≤ vec_capacity all.old }
    ensures items { all.new.items ≡ all.old.items ++ replies.now }
    ensures capacity { vec_capacity all.new ≡ vec_capacity all.old }
{
    for reply in replies {
        all.push_reserved(*reply);
    }
}
