// The lists of the lent segments, each segment's part after that of the segment before it: row ids, offsets, values in words, the lengths of terms and their bytes, alive words.
#[derive(Clone, Copy)]
pub struct Sections<'a> {
    pub ids: &'a [u32],
    pub offsets: &'a [u32],
    pub values: &'a [u64],
    pub lengths: &'a [u32],
    pub bytes: &'a [u8],
    pub alive: &'a [u64],
}
