// A run is recorded while it is observed.
ghost use Rattle.std.specs.Prelude.{◌≡◌, ◌<◌, ◌≤◌, List, [], ◌∷◌, ◌++◌, All, IfOk, OnOk, OnErr, length, map, ℕ, false};
ghost use Rattle.std.specs.List.{AllByRecursion};
ghost use Rattle.jl_analysis.specs.Rules.{IsRule};
ghost use Rattle.jl_op.specs.Map.{BeginsIn};
ghost use Rattle.jl_op.specs.Operations.{Operation};
ghost use Rattle.jl_report.specs.Reports.{saturate_u64};
ghost use Rattle.jl_record.specs.Bounded.{Holds};
ghost use Rattle.jl_record.specs.Lines.{with_ends};
ghost use Rattle.jl_record.specs.Records.{operation_line};
ghost use Rattle.jl_record.specs.Recording.{run_of, bytes_of_run, OnTooLong};
ghost use Rattle.jl_record.specs.Storing.{CanBeStored};

use crate::bounded::Bounded;
use crate::refusal::RecordRefusal;
use crate::written_lines::{write_head, write_operation};
use jl_op::{Observer, Op, OpId, OpMap};
use jl_report::Off;
use jl_text::Lines;
use std::alloc::{AllocError, Global};

/// An observer that keeps the lines of the operations that it has seen, or only that they were longer than a limit.
/// Where it finds no memory left, `see` answers so, and so does every later call.
#[derive(Drop)]
pub struct Recorder {
    alloc: Global,
    lines: Bounded,
    count: u64,
    refused: bool,
}

impl Observer for Recorder {
    ghost stands_for = { λ r seen. Holds r.lines (with_ends (map operation_line seen))
        × (r.count ≡ saturate_u64 (length seen))
        × AllByRecursion (λ o. CanBeStored o.1) seen };

    ghost has_refused = { λ r. r.refused };

    ghost fixed = { λ r. r.lines.limit ∷ [] };

    fn see(&mut self, id: OpId, op: &Op) -> Result<(), AllocError> {
        if self.refused {
            return Err(AllocError);
        }
        self.refused = true;
        write_operation(self.alloc, &mut self.lines, id, op)?;
        self.refused = false;
        self.count = self.count.saturating_add(1);
        Ok(())
    }
}

impl Recorder {
    /// Nothing has been seen. The text of the run may have as many bytes as the limit.
    pub fn new(alloc: Global, limit: u64) -> Recorder
        ensures limit { ⟦<Recorder as Observer>⟧.fixed result ≡ limit ∷ [] }
        ensures nothing { ⟦<Recorder as Observer>⟧.stands_for result [] }
        ensures ready { ⟦<Recorder as Observer>⟧.has_refused result ≡ false }
    {
        Recorder {
            alloc,
            lines: Bounded::new(alloc, limit),
            count: 0,
            refused: false,
        }
    }

    /// The text, in UTF-8, of the run whose operations were seen, where its map, the lines of the source and what is
    /// switched off are these. It is refused as too long exactly where it has more bytes than the limit.
    pub fn finish(
        self,
        alloc: Global,
        map: &OpMap,
        lines: &Lines,
        off: &Off,
    ) -> Result<Vec<u8>, RecordRefusal>
        requires places { All (BeginsIn lines.now) map.now }
        requires rules { All (λ pair. IsRule pair.1) off.now }
        ensures found { IfOk result (λ text. (seen : List Operation)
            → ⟦<Recorder as Observer>⟧.stands_for self seen
            → text.items ≡ bytes_of_run (run_of lines.now map.now off.now seen)) }
        ensures stored { IfOk result (λ _. (seen : List Operation)
            → ⟦<Recorder as Observer>⟧.stands_for self seen → AllByRecursion (λ o. CanBeStored o.1) seen) }
        ensures within { IfOk result (λ text. (limit : ℕ) → ⟦<Recorder as Observer>⟧.fixed self ≡ limit ∷ []
            → length text.items ≤ limit) }
        ensures too_long { OnTooLong result ((limit : ℕ) (seen : List Operation)
            → ⟦<Recorder as Observer>⟧.fixed self ≡ limit ∷ [] → ⟦<Recorder as Observer>⟧.stands_for self seen
            → limit < length (bytes_of_run (run_of lines.now map.now off.now seen))) }
    {
        if self.refused {
            return Err(RecordRefusal::NoMemory);
        }
        let Recorder {
            lines: mut tail,
            count,
            ..
        } = self;
        tail.word("end\n")?;
        if tail.passed {
            return Err(RecordRefusal::TooLong);
        }
        let mut head = Bounded::new(alloc, tail.limit);
        write_head(&mut head, map, lines, off, count)?;
        head.followed_by(tail)
    }
}
