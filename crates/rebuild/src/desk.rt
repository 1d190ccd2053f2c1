// A builder's state, lists and notes, and its calls, with lists to work in that are filled, and longer than any record needs.
// Stays, point 6: the output is an array of the most that a record lends; a Vec could fail.
use office::calls::{
    uskelzar_add, uskelzar_begin, uskelzar_clear, uskelzar_drop_last, uskelzar_finish,
    uskelzar_replace,
};
use recorded::record::{byte_at, size_at, word_at};
use recorded::reply::{Reply, spoken, unspoken};

// What is kept between two calls. All of it is filled before the first.
#[derive(Drop)]
pub(crate) struct Desk {
    pub state: [u64; 14],
    pub boxes: [i32; 160],
    pub borders: [u32; 40],
    pub lengths: [u32; 1024],
    pub texts: [u8; 32768],
    pub bytes: [u8; 32768],
}

// What is noted beside it, for quick adds; at the first step it holds anything.
#[derive(Drop)]
pub(crate) struct Notes {
    pub marks: [u32; 1025],
    pub chains: [u32; 5120],
    pub groups: [u32; 4136],
    pub begins: [u32; 40],
}

// What a call works in.
#[derive(Drop)]
struct Work {
    starts: [u32; 1025],
    keys: [u64; 1024],
    spare: [u64; 1024],
    kept: [u32; 1024],
    held: [u8; 32768],
    words: [u32; 1024],
    places: [u32; 80],
}

// A yard that is offered.
#[derive(Clone, Copy)]
pub(crate) struct Yard<'a> {
    pub lats: &'a [i32],
    pub lons: &'a [i32],
    pub pieces: &'a [u32],
    pub sizes: &'a [u32],
    pub values: &'a [u8],
}

fn filled() -> Work {
    Work {
        starts: [0xAAAA_AAAA; 1025],
        keys: [0xAAAA_AAAA_AAAA_AAAA; 1024],
        spare: [0xAAAA_AAAA_AAAA_AAAA; 1024],
        kept: [0xAAAA_AAAA; 1024],
        held: [0xAA; 32768],
        words: [0xAAAA_AAAA; 1024],
        places: [0xAAAA_AAAA; 80],
    }
}

impl Desk {
    // What a call said. The totals stand in a record behind a refusal too, where they are those of the state.
    fn told(&self, number: u8, words: [u64; 5]) -> Reply {
        let reply = spoken(number, words);
        if number == 0 {
            return reply;
        }
        let state = self.state;
        Reply {
            outcome: reply.outcome,
            number: reply.number,
            cause: reply.cause,
            detail: reply.detail,
            words: [state[8], state[9], state[10], state[11], state[12]],
        }
    }

    // With what the record asks for.
    pub(crate) fn begin(&mut self, record: &[u8], sizes: &[u32], strings: &[u8]) -> Reply {
        let mut said = unspoken();
        let number = uskelzar_begin(
            &mut self.state,
            byte_at(record, 5),
            byte_at(record, 6),
            byte_at(record, 7),
            word_at(record, 8),
            size_at(record, 16),
            sizes,
            strings,
            &mut self.boxes,
            &mut self.borders,
            &mut self.lengths,
            &mut self.texts,
            &mut self.bytes,
            &mut said,
        );
        self.told(number, said)
    }

    pub(crate) fn add(&mut self, notes: &mut Notes, yard: Yard) -> Reply {
        let mut work = filled();
        let mut out = [0xAA; 32768];
        let mut said = unspoken();
        let number = uskelzar_add(
            &mut self.state,
            yard.lats,
            yard.lons,
            yard.pieces,
            yard.sizes,
            yard.values,
            &mut self.boxes,
            &mut self.borders,
            &mut self.lengths,
            &mut self.texts,
            &mut self.bytes,
            &mut notes.marks,
            &mut notes.chains,
            &mut notes.groups,
            &mut notes.begins,
            &mut work.starts,
            &mut work.keys,
            &mut work.spare,
            &mut work.kept,
            &mut work.held,
            &mut work.words,
            &mut work.places,
            &mut out,
            &mut said,
        );
        self.told(number, said)
    }

    pub(crate) fn drop_last(&mut self) -> Reply {
        let mut work = filled();
        let mut said = unspoken();
        let number = uskelzar_drop_last(
            &mut self.state,
            &mut self.boxes,
            &mut self.borders,
            &mut self.lengths,
            &mut self.texts,
            &mut self.bytes,
            &mut work.starts,
            &mut work.keys,
            &mut work.spare,
            &mut work.kept,
            &mut work.held,
            &mut work.words,
            &mut work.places,
            &mut said,
        );
        self.told(number, said)
    }

    pub(crate) fn replace(&mut self, yard: u32, field: u32, text: &[u8]) -> Reply {
        let mut work = filled();
        let mut out = [0xAA; 32768];
        let mut said = unspoken();
        let number = uskelzar_replace(
            &mut self.state,
            yard,
            field,
            text,
            &mut self.boxes,
            &mut self.borders,
            &mut self.lengths,
            &mut self.texts,
            &mut self.bytes,
            &mut work.starts,
            &mut work.keys,
            &mut work.spare,
            &mut work.kept,
            &mut work.held,
            &mut work.words,
            &mut work.places,
            &mut out,
            &mut said,
        );
        self.told(number, said)
    }

    pub(crate) fn clear(&mut self) -> Reply {
        let mut said = unspoken();
        let number = uskelzar_clear(
            &mut self.state,
            &mut self.boxes,
            &mut self.borders,
            &mut self.lengths,
            &mut self.texts,
            &mut self.bytes,
            &mut said,
        );
        self.told(number, said)
    }

    pub(crate) fn finish(&self, out: &mut [u8]) -> Reply {
        let mut work = filled();
        let mut said = unspoken();
        let number = uskelzar_finish(
            &self.state,
            &self.boxes,
            &self.borders,
            &self.lengths,
            &self.texts,
            &self.bytes,
            &mut work.starts,
            &mut work.keys,
            &mut work.spare,
            &mut work.kept,
            &mut work.held,
            &mut work.words,
            &mut work.places,
            out,
            &mut said,
        );
        spoken(number, said)
    }
}
