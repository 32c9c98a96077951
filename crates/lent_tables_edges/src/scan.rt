// Tables written as text: after the line that names the table, pairs of an address and a word, and remarks after a
// semicolon.
ghost use Rattle.std.specs.Prelude.{◌≤◌, length};

// What is known behind a byte: whether it stands in a remark, the number that goes on there, and the address before.
#[derive(Clone, Copy)]
struct Scan {
    remark: bool,
    number: Option<u64>,
    address: Option<u64>,
}

// A word that fits is stored, where there is room for it.
fn store(tables: &mut [u32], address: u64, word: u64) {
    if let (Some(place), Ok(word)) = (tables.get_mut(address as usize), u32::try_from(word)) {
        *place = word;
    }
}

// A number has ended, if one had begun: an address, or the word of the address before.
fn ended(s: Scan, tables: &mut [u32]) -> Scan {
    let Some(number) = s.number else {
        return s;
    };
    let Some(address) = s.address else {
        return Scan {
            number: None,
            address: Some(number),
            ..s
        };
    };
    store(tables, address, number);
    Scan {
        number: None,
        address: None,
        ..s
    }
}

fn digit(s: Scan, d: u64) -> Scan {
    let number = s.number.unwrap_or(0) % 0x1_0000_0000 * 10 + d % 10;
    Scan {
        number: Some(number),
        ..s
    }
}

fn step(s: Scan, tables: &mut [u32], byte: u8) -> Scan {
    match byte {
        b'\n' => Scan {
            remark: false,
            ..ended(s, tables)
        },
        b';' => Scan {
            remark: true,
            ..ended(s, tables)
        },
        b'0'..=b'9' if s.remark => s,
        b'0'..=b'9' => digit(s, u64::from(byte - b'0')),
        _ => ended(s, tables),
    }
}

// Reads the table that begins at a place, and gives the place of the next.
pub fn table(text: &[u8], from: usize, tables: &mut [u32]) -> usize
    requires { from ≤ length text.now }
    ensures { result ≤ length text.now }
{
    tables.fill(0);
    let mut s = Scan {
        remark: true,
        number: None,
        address: None,
    };
    for i in from..text.len() {
        let byte = text[i];
        if byte == b'#' {
            return i + 1;
        }
        s = step(s, tables, byte);
    }
    text.len()
}
