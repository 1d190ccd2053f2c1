// A place on the earth, in degrees.
#[derive(Clone, Copy)]
pub struct Location {
    pub lat: f32,
    pub lon: f32,
}
