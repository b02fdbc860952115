// The four words of a turn.
ghost use Rattle.std.specs.Prelude.{◌≡◌, ◌<◌, ◌*◌, ◌+◌};
ghost use Rattle.rand_pcg.specs.Pcg.{pcg32};
ghost use Rattle.workload_gen.specs.Words.{behind_words, generator_of, word_at};

use rand_core::utils::NextWord;
use rand_pcg::Lcg64Xsh32;

/// The words of one turn, each for one choice.
#[derive(Clone, Copy, Debug)]
pub(crate) struct Words {
    pub(crate) share: u32,
    pub(crate) read: u32,
    pub(crate) random: u32,
    pub(crate) block: u32,
}

/// The generator of a worker of a run.
pub(crate) fn generator_of(run: u32, worker: u32) -> Lcg64Xsh32
    ensures { result ≡ generator_of run worker }
{
    Lcg64Xsh32::new(u64::from(run), u64::from(worker))
}

/// The next four words.
pub(crate) fn next_words(generator: &mut Lcg64Xsh32) -> Words
    ensures share { result.share ≡ word_at generator.old 0 }
    ensures read { result.read ≡ word_at generator.old 1 }
    ensures random { result.random ≡ word_at generator.old 2 }
    ensures block { result.block ≡ word_at generator.old 3 }
    ensures rest { generator.new ≡ behind_words generator.old 4 }
{
    let share = generator.next_word();
    let read = generator.next_word();
    let random = generator.next_word();
    let block = generator.next_word();
    Words {
        share,
        read,
        random,
        block,
    }
}
