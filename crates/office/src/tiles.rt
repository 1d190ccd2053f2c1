// What builds a tile index and an atlas, and works them out again, for C.
// Stays, points 2 and 5: C calls each of these by its name, with these parameters.
ghost use Rattle.std.specs.Prelude.{length, ◌≡◌, [], ◌∷◌};
ghost use Rattle.atlas.specs.Atlas.{atlas_made, is_atlas_of};
ghost use Rattle.index.specs.{Index.{indexed_of}, Own.{is_index_of}};
ghost use Rattle.numbers.specs.Spoken.{said_of, no_values, spoken};
ghost use Rattle.office.specs.Written.{index_spoken};

use crate::said::say_length;
use atlas::build::build_atlas;
use atlas::own::is_atlas;
use index::build::build_index;
use index::own::is_index;
use index::tied::say_tied;
use numbers::said::speak;

// Builds a file's index. Value: how many words are used.
pub fn uskelzar_build_index(file: &[u8], index: &mut [u32], reply: &mut [u64; 5]) -> u8
    ensures { spoken result reply.new (index.new ∷ []) ≡ index_spoken (indexed_of file.now (length index.old)) }
{
    speak(say_length(build_index(file, index)), reply)
}

// Works a file's index out again: 0 where the words are those that `uskelzar_build_index`, lent as many, leaves for this file. No values.
pub fn uskelzar_is_index(file: &[u8], index: &[u32], reply: &mut [u64; 5]) -> u8
    ensures { spoken result reply.new [] ≡ record { said = said_of no_values (is_index_of file.now index.now); lent = [] } }
{
    speak(say_tied(is_index(file, index)), reply)
}

// Builds a file's atlas. Value: how many words are used.
pub fn uskelzar_build_atlas(file: &[u8], atlas: &mut [u32], reply: &mut [u64; 5]) -> u8
    ensures { spoken result reply.new (atlas.new ∷ []) ≡ index_spoken (atlas_made file.now (length atlas.old)) }
{
    speak(say_length(build_atlas(file, atlas)), reply)
}

// Works a file's atlas out again: 0 where the words are those that `uskelzar_build_atlas`, lent as many, leaves for this file. No values.
pub fn uskelzar_is_atlas(file: &[u8], atlas: &[u32], reply: &mut [u64; 5]) -> u8
    ensures { spoken result reply.new [] ≡ record { said = said_of no_values (is_atlas_of file.now atlas.now); lent = [] } }
{
    speak(say_tied(is_atlas(file, atlas)), reply)
}
