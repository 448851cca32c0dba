// Lawful programmes that the tests change.

// Writes bytes one after the other from `at` on.
pub(crate) fn put(programme: &mut [u8], at: usize, bytes: &[u8]) {
    for (place, byte) in programme.iter_mut().skip(at).zip(bytes) {
        *place = *byte;
    }
}

// Writes a day type with one slot, of period 1, at each of these offsets.
fn put_plain_days(programme: &mut [u8], offsets: &[usize]) {
    for at in offsets {
        put(programme, *at, &[1, 0, 0, 1]);
    }
}

const LABELS: &[u8; 24] = b"P1 P2 P3 P4 P5 P6 P7 XXX";

// Every choice is 1, and every day type has one slot, of period 1.
pub(crate) fn plain_month() -> [u8; 166] {
    let mut programme = [0; 166];
    put(&mut programme, 0, b"TPM\0\x01");
    put(&mut programme, 5, &[1; 44]);
    put_plain_days(&mut programme, &[49, 80, 111]);
    put(&mut programme, 142, LABELS);
    programme
}

// April to October are season 2. Each season has a week profile with a day type of its own, but Sundays have one day
// type throughout.
pub(crate) fn two_seasons() -> [u8; 166] {
    let mut programme = plain_month();
    put(&mut programme, 8, &[2; 7]);
    put(&mut programme, 17, &[1, 2]);
    put(
        &mut programme,
        21,
        &[1, 1, 1, 1, 1, 1, 3, 2, 2, 2, 2, 2, 2, 3],
    );
    // from 00:00, 06:00 and 22:00 on
    put(&mut programme, 49, &[3, 0, 0, 1, 1, 104, 2, 5, 40, 1]);
    // from 00:00 and 02:30 on
    put(&mut programme, 80, &[2, 0, 0, 3, 0, 150, 4]);
    put(&mut programme, 111, &[1, 0, 0, 5]);
    programme
}

// One season from 1 January on; every week profile has day type 1, and every day type one slot, of period 1.
pub(crate) fn plain_date() -> [u8; 360] {
    let mut programme = [0; 360];
    put(&mut programme, 0, b"TPD\0\x01");
    put(&mut programme, 5, &[1, 1, 1, 1]);
    put(&mut programme, 42, &[1; 56]);
    put_plain_days(&mut programme, &[98, 132, 166, 200, 234, 268, 302]);
    put(&mut programme, 336, LABELS);
    programme
}

// Seasons from 28 February, 1 March and 15 November on, with the week profiles 2, 3 and 1 and a day type for each.
pub(crate) fn three_seasons() -> [u8; 360] {
    let mut programme = plain_date();
    put(&mut programme, 5, &[3, 2, 28, 2, 3, 1, 3, 11, 15, 1]);
    put(
        &mut programme,
        49,
        &[2, 2, 2, 2, 2, 2, 2, 3, 3, 3, 3, 3, 3, 4],
    );
    // from 00:00, 06:00 and 22:00 on
    put(&mut programme, 98, &[3, 0, 0, 1, 1, 104, 2, 5, 40, 1]);
    put(&mut programme, 132, &[1, 0, 0, 3]);
    put(&mut programme, 166, &[1, 0, 0, 4]);
    put(&mut programme, 200, &[1, 0, 0, 5]);
    programme
}
