// When summer time begins and ends.
ghost use Rattle.std.specs.Prelude.{◌≡◌, ◌+◌, ◌<◌, ◌≤◌};
ghost use Rattle.legal_time.specs.Days.{last_sunday};
ghost use Rattle.legal_time.specs.Summer.{summer_at};

use crate::dates::{DAY_MINUTES, Day};

// The days on which local time changes, as day numbers: for each year from 2000 to 2099 the last Sunday of March and
// that of October.
static CHANGE_DAYS: [(u16, u16); 100] = [
    (85, 302),
    (449, 666),
    (820, 1030),
    (1184, 1394),
    (1548, 1765),
    (1912, 2129),
    (2276, 2493),
    (2640, 2857),
    (3011, 3221),
    (3375, 3585),
    (3739, 3956),
    (4103, 4320),
    (4467, 4684),
    (4838, 5048),
    (5202, 5412),
    (5566, 5776),
    (5930, 6147),
    (6294, 6511),
    (6658, 6875),
    (7029, 7239),
    (7393, 7603),
    (7757, 7974),
    (8121, 8338),
    (8485, 8702),
    (8856, 9066),
    (9220, 9430),
    (9584, 9794),
    (9948, 10165),
    (10312, 10529),
    (10676, 10893),
    (11047, 11257),
    (11411, 11621),
    (11775, 11992),
    (12139, 12356),
    (12503, 12720),
    (12867, 13084),
    (13238, 13448),
    (13602, 13812),
    (13966, 14183),
    (14330, 14547),
    (14694, 14911),
    (15065, 15275),
    (15429, 15639),
    (15793, 16003),
    (16157, 16374),
    (16521, 16738),
    (16885, 17102),
    (17256, 17466),
    (17620, 17830),
    (17984, 18201),
    (18348, 18565),
    (18712, 18929),
    (19083, 19293),
    (19447, 19657),
    (19811, 20021),
    (20175, 20392),
    (20539, 20756),
    (20903, 21120),
    (21274, 21484),
    (21638, 21848),
    (22002, 22219),
    (22366, 22583),
    (22730, 22947),
    (23094, 23311),
    (23465, 23675),
    (23829, 24039),
    (24193, 24410),
    (24557, 24774),
    (24921, 25138),
    (25292, 25502),
    (25656, 25866),
    (26020, 26230),
    (26384, 26601),
    (26748, 26965),
    (27112, 27329),
    (27483, 27693),
    (27847, 28057),
    (28211, 28428),
    (28575, 28792),
    (28939, 29156),
    (29310, 29520),
    (29674, 29884),
    (30038, 30248),
    (30402, 30619),
    (30766, 30983),
    (31130, 31347),
    (31501, 31711),
    (31865, 32075),
    (32229, 32446),
    (32593, 32810),
    (32957, 33174),
    (33321, 33538),
    (33692, 33902),
    (34056, 34266),
    (34420, 34637),
    (34784, 35001),
    (35148, 35365),
    (35519, 35729),
    (35883, 36093),
    (36247, 36457),
];

// The change days of a year, by the years since 2000.
#[tactic(auto, using(crate::proofs::Table::spring_at, crate::proofs::Table::autumn_at))]
fn change_days(years: u16) -> (u16, u16)
    requires { years < 100 }
    ensures spring { result.0 ≡ last_sunday (2000 + years) 3 }
    ensures autumn { result.1 ≡ last_sunday (2000 + years) 10 }
{
    CHANGE_DAYS[usize::from(years)]
}

// Local time changes at 01:00 UTC.
pub(crate) fn is_summer(stamp: u32) -> bool
    requires { stamp ≤ 52595939 }
    ensures { result ≡ summer_at stamp }
{
    let day = Day {
        number: stamp / DAY_MINUTES,
    };
    let (spring, autumn) = change_days(day.years());
    let begin = u32::from(spring) * DAY_MINUTES + 60;
    let end = u32::from(autumn) * DAY_MINUTES + 60;
    (begin..end).contains(&stamp)
}
