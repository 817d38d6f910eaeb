//! What `regex` builds, with the engines that search for it.
ghost use Rattle.std.specs.Prelude.{◌≡◌, is_some, vec_len, IfOk, IfSome};
ghost use Rattle.std.specs.Option.{ForSome};
ghost use Rattle.regex_dfa.specs.Search.{IsForwardFor};

use bt_base::OutOfMemory;
use regex_dfa::{End, Forward};
use regex_meta::Program;
use regex_vm::PikeVm;
use std::alloc::{AllocError, Global};

/// A program with the engines that search for it. A `Matcher` of `regex` borrows its `Regex`, so that both
/// cannot lie in one value; these engines are lent the program at each search.
#[derive(Drop)]
pub(crate) struct Finder {
    pub(crate) program: Program,
    alloc: Global,
    forward: Forward,
    /// Made where the DFA first gives up.
    pike: Option<PikeVm>,
    ghost forward_runs: { IsForwardFor forward program.dfa },
    ghost pike_fits: { ForSome pike (λ vm. vm.states ≡ vec_len program.dfa.nfa.states) },
}

impl Finder {
    ghost use Rattle.regex_meta.specs.Programs.{leftmost};

    pub(crate) fn new(alloc: Global, program: Program) -> Result<Finder, AllocError>
        ensures { IfOk result (λ f. f.program ≡ program) }
    {
        let forward = Forward::new(alloc, &program.dfa, false)?;
        Ok(Finder {
            program,
            alloc,
            forward,
            pike: None,
        })
    }

    /// Whether the program matches somewhere in the text.
    pub(crate) fn is_match(&mut self, text: &[u8]) -> Result<bool, OutOfMemory>
        ensures found { IfOk result (λ b. b ≡ is_some (leftmost self.old.program text.now 0)) }
        ensures same { self.new.program ≡ self.old.program }
    {
        match self.by_dfa(text) {
            Some(found) => Ok(found),
            None => self.by_nfa(text),
        }
    }

    fn by_dfa(&mut self, text: &[u8]) -> Option<bool>
        ensures found { IfSome result (λ b. b ≡ is_some (leftmost self.old.program text.now 0)) }
        ensures same { self.new.program ≡ self.old.program }
    {
        let program = &self.program;
        if !regex_extract::is_anchored_start(&program.hir) {
            return None;
        }
        match self
            .forward
            .find_end(&program.dfa, text, 0, text.len(), true, true)
        {
            End::At(_) => Some(true),
            End::NoMatch => Some(false),
            End::Idle(_) | End::GaveUp => None,
        }
    }

    #[cold]
    fn by_nfa(&mut self, text: &[u8]) -> Result<bool, OutOfMemory>
        ensures found { IfOk result (λ b. b ≡ is_some (leftmost self.old.program text.now 0)) }
        ensures same { self.new.program ≡ self.old.program }
    {
        let program = &self.program;
        let mut pike = match self.pike.take() {
            Some(pike) => pike,
            None => PikeVm::new(self.alloc, &program.dfa.nfa)?,
        };
        let found = pike.is_match(&program.dfa.nfa, text, 0, text.len(), text.len());
        self.pike = Some(pike);
        Ok(found)
    }
}
