// The words of a file.

// Reads the bytes, four to a word, the lowest first: as many whole words as there are, and as `words` has places for.
pub fn read<'a>(bytes: &[u8], words: &'a mut [u32]) -> &'a [u32] {
    let (chunks, _) = bytes.as_chunks::<4>();
    for (word, chunk) in words.iter_mut().zip(chunks) {
        *word = u32::from_le_bytes(*chunk);
    }
    words.get(..chunks.len()).unwrap_or(words)
}
