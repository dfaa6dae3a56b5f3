// Words with two ways on.

ghost use Rattle.std.specs.Prelude.{◌≡◌, ◌&&◌, ◌||◌, ◌==◌};
ghost use Rattle.rules.specs.Choice.{any};
ghost use Rattle.rules.specs.Image.{Image};
ghost use Rattle.rules.specs.Finalize as rules;
ghost use Rattle.tables.specs.Groups.{grouped};

use tables::Way;

// Whether both are from one word, and one of them goes to `key`.
fn is_shared(way: Way, next: Way, key: u64) -> bool
    ensures { result ≡ (way.from == next.from && (key == way.to || key == next.to)) }
{
    way.from == next.from && (key == way.to || key == next.to)
}

/// Whether a word has two ways on, one of them to `key`. A word's ways on stand together.
pub fn branches_to(ways: &[Way], key: u64) -> bool
    ensures { (im : Image) → result ≡ any (rules.branches_to im key) (grouped ways.now) }
{
    ways.iter()
        .zip(ways.iter().skip(1))
        .any(|(way, next)| is_shared(*way, *next, key))
}
