// What the shelves in memory share: finding a file, and reading it at a place.
ghost use Rattle.std.specs.Prelude.{◌≡◌, take, drop, length, option_map};
ghost use Rattle.halo_io.specs.Held.{bytes_under, count_from};

// The bytes of the first file of that name.
pub fn find_bytes<'a>(files: &'a [(String, Vec<u8>)], name: &str) -> Option<&'a [u8]>
    ensures { option_map (λ bytes. bytes.now) result ≡ bytes_under files.now name.now }
{
    for file in files {
        if file.0.as_str() == name {
            return Some(file.1.as_slice());
        }
    }
    None
}

// Copies the bytes from `at` on to the front of `into`, as far as both reach, and counts them.
pub fn copy_from(bytes: &[u8], at: u64, into: &mut [u8]) -> usize
    ensures count { result ≡ count_from bytes.now at (length into.old) }
    ensures copied { take result into.new ≡ take result (drop at bytes.now) }
{
    if at >= bytes.len() as u64 {
        return 0;
    }
    let rest = &bytes[at as usize..];
    let count = into.len().min(rest.len());
    into[..count].copy_from_slice(&rest[..count]);
    count
}
