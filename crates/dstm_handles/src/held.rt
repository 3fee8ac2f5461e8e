// What a handle stands for.
ghost use Rattle.std.specs.Prelude.{◌≡◌, false, true, Err};
ghost use Rattle.dstm_handles.specs.Held.{ByMemory, ByPart, IsIdle, IsMemory, IsPart};
ghost use Rattle.dstm_handles.specs.Memories.{GivesOut, MakesCell, MakesCells, Peeks};
ghost use Rattle.dstm_handles.specs.Threads.{BeginsOr, CallsOnce, Commits, Enters, Gets, GivesUp, Marks, Sets, UndoesTo};
ghost use Rattle.dstm_handles.specs.Waiting.{Looks};
ghost use Rattle.dstm_handles.specs.declared.code.Code.TheVariants.{Closed};

use crate::code::Code;
use crate::memory::Memory;
use crate::thread::Thread;
use dstm_cells::{Owned, Stop};
use dstm_model::{AnyLaw, Law, Val};

/// What a handle stands for. A call that is not of its kind answers `Closed`.
#[derive(Drop)]
pub enum Held {
    /// A memory.
    Memory(Memory),
    /// A thread's part in one.
    Thread(Thread),
}

impl Held {
    /// Whether it is a memory.
    pub fn is_memory(&self) -> bool
        ensures is { result ≡ true → IsMemory self.now }
        ensures is_not { result ≡ false → IsPart self.now }
        ensures idle { result ≡ true → IsIdle self.now }
    {
        match self {
            Held::Memory(_) => true,
            Held::Thread(_) => false,
        }
    }

    /// `Memory::cell`.
    pub fn cell(&mut self, value: Val) -> Result<u32, Code>
        ensures { ByMemory (λ old new. MakesCell ⟦<AnyLaw as Law>⟧.holds value old new result) (result ≡ Err Closed)
            self.old self.new }
    {
        match self {
            Held::Memory(memory) => memory.cell(value),
            Held::Thread(_) => Err(Code::Closed),
        }
    }

    /// `Memory::cells`.
    pub fn cells(&mut self, value: Val, count: u32) -> Result<u32, Code>
        ensures { ByMemory (λ old new. MakesCells ⟦<AnyLaw as Law>⟧.holds value count old new result) (result ≡ Err Closed)
            self.old self.new }
    {
        match self {
            Held::Memory(memory) => memory.cells(value, count),
            Held::Thread(_) => Err(Code::Closed),
        }
    }

    /// `Memory::peek`.
    pub fn peek(&mut self, cell: u32) -> Result<Val, Code>
        ensures { ByMemory (λ old new. Peeks ⟦<AnyLaw as Law>⟧.holds cell old new result) (result ≡ Err Closed)
            self.old self.new }
    {
        match self {
            Held::Memory(memory) => memory.peek(cell),
            Held::Thread(_) => Err(Code::Closed),
        }
    }

    /// `Memory::thread`.
    pub fn part(&mut self) -> Result<Thread, Code>
        ensures { ByMemory (λ old new. GivesOut ⟦<AnyLaw as Law>⟧.holds old new result) (result ≡ Err Closed)
            self.old self.new }
    {
        match self {
            Held::Memory(memory) => memory.thread(),
            Held::Thread(_) => Err(Code::Closed),
        }
    }

    /// `Thread::enter`.
    pub fn enter(&mut self, lost: u32) -> Code
        ensures { ByPart (λ old new. Enters old new result) (result ≡ Closed) self.old self.new }
    {
        match self {
            Held::Memory(_) => Code::Closed,
            Held::Thread(thread) => thread.enter(lost),
        }
    }

    /// `Thread::begin`.
    #[inline]
    pub fn begin(&mut self) -> Code
        ensures { ByPart (λ old new. BeginsOr ⟦<AnyLaw as Law>⟧.holds old new result) (result ≡ Closed) self.old self.new }
    {
        match self {
            Held::Memory(_) => Code::Closed,
            Held::Thread(thread) => thread.begin(),
        }
    }

    /// `Thread::get`.
    #[inline]
    pub fn get(&mut self, cell: u32) -> Result<Val, Code>
        ensures { ByPart (λ old new. Gets ⟦<AnyLaw as Law>⟧.holds cell old new result) (result ≡ Err Closed) self.old self.new }
    {
        match self {
            Held::Memory(_) => Err(Code::Closed),
            Held::Thread(thread) => thread.get(cell),
        }
    }

    /// `Thread::set`.
    #[inline]
    pub fn set(&mut self, cell: u32, value: Val) -> Result<Val, Code>
        ensures { ByPart (λ old new. Sets ⟦<AnyLaw as Law>⟧.holds cell value old new result) (result ≡ Err Closed) self.old self.new }
    {
        match self {
            Held::Memory(_) => Err(Code::Closed),
            Held::Thread(thread) => thread.set(cell, value),
        }
    }

    /// `Thread::on`.
    #[inline]
    pub fn on<R: Drop, F>(&mut self, f: F) -> Result<R, Code>
    where
        F: FnOnce(&mut Owned) -> Result<R, Stop>,
        requires callable { F.IsAlwaysCallable f }
        ensures { ByPart (λ old new. CallsOnce (λ t. t.tx) F.FnOnce f old new result) (result ≡ Err Closed) self.old self.new }
    {
        match self {
            Held::Memory(_) => Err(Code::Closed),
            Held::Thread(thread) => thread.on(f),
        }
    }

    /// `Thread::commit`.
    #[inline]
    pub fn commit(&mut self) -> Code
        ensures { ByPart (λ old new. Commits ⟦<AnyLaw as Law>⟧.holds old new result) (result ≡ Closed) self.old self.new }
    {
        match self {
            Held::Memory(_) => Code::Closed,
            Held::Thread(thread) => thread.commit(),
        }
    }

    /// `Thread::abort`.
    #[inline]
    pub fn abort(&mut self) -> Code
        ensures gives_up { ByPart (λ old new. GivesUp ⟦<AnyLaw as Law>⟧.holds old new result) (result ≡ Closed) self.old self.new }
        ensures idle { IsIdle self.new }
    {
        match self {
            Held::Memory(_) => Code::Closed,
            Held::Thread(thread) => thread.abort(),
        }
    }

    /// `Thread::look`.
    pub fn look(&mut self) -> Code
        ensures { ByPart (λ old new. Looks old new result) (result ≡ Closed) self.old self.new }
    {
        match self {
            Held::Memory(_) => Code::Closed,
            Held::Thread(thread) => thread.look(),
        }
    }

    /// `Thread::mark`.
    pub fn mark(&mut self) -> Result<u64, Code>
        ensures { ByPart (λ old new. Marks old new result) (result ≡ Err Closed) self.old self.new }
    {
        match self {
            Held::Memory(_) => Err(Code::Closed),
            Held::Thread(thread) => thread.mark(),
        }
    }

    /// `Thread::undo_to`.
    pub fn undo_to(&mut self, mark: u64) -> Code
        ensures { ByPart (λ old new. UndoesTo ⟦<AnyLaw as Law>⟧.holds mark old new result) (result ≡ Closed) self.old self.new }
    {
        match self {
            Held::Memory(_) => Code::Closed,
            Held::Thread(thread) => thread.undo_to(mark),
        }
    }
}

/// Gives up what a handle stood for. A part makes no transaction then, so that it keeps nobody from committing.
pub fn free(held: Box<Held>)
    requires idle { IsIdle held.value }
{
    drop(held);
}
