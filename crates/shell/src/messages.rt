// What the program says on standard error. That it could not be said is not told.
use std::fmt::InlineText;
use std::io;

pub fn usage(errors: &impl Print) {
    let _ = errors.write_all(
        b"stamp: give a map and a bundle of zones: stamp MAP ZONES, with requests on standard input\n",
    );
}

pub fn cannot(errors: &impl Print, path: &[u8], why: &io::Error) {
    broken(errors, path, why);
    let _ = errors.write_all(
        b"stamp: that file cannot be read: see its path and who may read it; of a folder of zones depot bundle makes one file; then run stamp MAP ZONES again\n",
    );
}

pub fn too_large(errors: &impl Print, path: &[u8], most: u64) {
    let _ = errors.write_all(path);
    let _ = errors.print(format_args!(": too large: a file of at most {most}"));
    let _ = errors.write_all(
        b" bytes is taken here: give a map of a lower precision, or a bundle of fewer zones (depot bundle --map MAP)\n",
    );
}

// What the system says of something that failed, without the number that the library puts behind it.
pub fn broken(errors: &impl Print, what: &[u8], why: &io::Error) {
    let said = InlineText::<320>::of(*why);
    let words = said.as_str();
    let end = words.rfind(" (os error ").unwrap_or(words.len());
    let _ = errors.write_all(what);
    let _ = errors.write_all(b": ");
    let _ = errors.write_all(&words.as_bytes()[..end.min(words.len())]);
    let _ = errors.write_all(b"\n");
}

// Of the room for both files.
pub fn no_memory(errors: &impl Print) {
    let _ = errors.write_all(b"stamp: out of memory\n");
}
