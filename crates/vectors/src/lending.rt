// The ways to lend an index.
#[derive(Clone, Copy)]
pub enum Lending {
    // no number
    None,
    // one number
    One,
    // enough for chains in one bucket
    OneBucket,
    // enough for chains in many buckets
    Buckets,
    // a bit for each setting
    Marks,
}

pub(crate) const ALL: [Lending; 5] = [
    Lending::None,
    Lending::One,
    Lending::OneBucket,
    Lending::Buckets,
    Lending::Marks,
];

impl Lending {
    // How many numbers are lent beside so many records, for a plant of so many settings.
    pub(crate) fn numbers(self, records: usize, settings: u32) -> usize {
        match self {
            Lending::None => 0,
            Lending::One => 1,
            Lending::OneBucket => records.saturating_add(1),
            Lending::Buckets => records.saturating_mul(3),
            Lending::Marks => settings as usize / 32 + 1,
        }
    }
}
