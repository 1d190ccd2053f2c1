// Salvage of a damaged file, for C.
ghost use Rattle.std.specs.Prelude.{length, ◌≡◌, [], ◌∷◌};
ghost use Rattle.salvage.specs.Salvage.{salvaged};
ghost use Rattle.numbers.specs.Spoken.{spoken};
ghost use Rattle.office.specs.Salvaged.{salvage_spoken};

// Salvages a file. Values: the new file's length, the list's lines, the entries kept.
#[unsafe(no_mangle)]
pub extern "C" fn uskelzar_salvage(
    file: &[u8],
    dropped: &mut [u32],
    out: &mut [u8],
    reply: &mut [u64; 5],
) -> u8
    ensures { spoken result reply.new (dropped.new ∷ out.new ∷ [])
        ≡ salvage_spoken (salvaged file.now (length dropped.old) (length out.old)) }
{
    office::salvaged::uskelzar_salvage(file, dropped, out, reply)
}
