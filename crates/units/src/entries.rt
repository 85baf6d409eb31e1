// The printed chapter (章) as a table: its entries, and how one of them is read.
ghost use Rattle.std.specs.Prelude.{◌≡◌, ◌*◌, ◌<◌, get_or};
ghost use Rattle.units.specs.Xinghe.{chapter_years};
ghost use Rattle.units.specs.Chapter.{chapter_table, four_years};

// The months before each year of a chapter.
type Entries = [u16; 562];

// The table's entry for a year of the chapter.
pub fn entry(j: u64) -> u16
    requires { j < chapter_years }
    ensures { result ≡ get_or chapter_table j 0 }
{
    let four = four_years((j / 4) as usize);
    let i = (j % 4) as usize;
    four[i]
}

// The table's entries for the four years from 4·t on, as the lent table has them. Its last two years are followed by zeros.
fn four_from(table: &Entries, t: usize) -> [u16; 4]
    requires { (table.now ≡ chapter_table) × (4 * t < chapter_years) }
    ensures { result ≡ four_years t }
{
    if t == 140 {
        return [table[560], table[561], 0, 0];
    }
    let first = 4 * t;
    [
        table[first],
        table[first + 1],
        table[first + 2],
        table[first + 3],
    ]
}

// The same, from the table itself. A constant array that is read at a place which only the run tells is laid out on the stack whole, at every
// look. In an arm the compiler knows t: what is read there stays in the program's data, and four entries are one load. So every t has its arm,
// and these say the same. The last arm is never taken; it has a table of its own, so that the first is read at known places alone.
fn four_years(t: usize) -> [u16; 4]
    requires { 4 * t < chapter_years }
    ensures { result ≡ four_years t }
{
    let table = chapter_table();
    match t {
        0 => four_from(&table, t),
        1 => four_from(&table, t),
        2 => four_from(&table, t),
        3 => four_from(&table, t),
        4 => four_from(&table, t),
        5 => four_from(&table, t),
        6 => four_from(&table, t),
        7 => four_from(&table, t),
        8 => four_from(&table, t),
        9 => four_from(&table, t),
        10 => four_from(&table, t),
        11 => four_from(&table, t),
        12 => four_from(&table, t),
        13 => four_from(&table, t),
        14 => four_from(&table, t),
        15 => four_from(&table, t),
        16 => four_from(&table, t),
        17 => four_from(&table, t),
        18 => four_from(&table, t),
        19 => four_from(&table, t),
        20 => four_from(&table, t),
        21 => four_from(&table, t),
        22 => four_from(&table, t),
        23 => four_from(&table, t),
        24 => four_from(&table, t),
        25 => four_from(&table, t),
        26 => four_from(&table, t),
        27 => four_from(&table, t),
        28 => four_from(&table, t),
        29 => four_from(&table, t),
        30 => four_from(&table, t),
        31 => four_from(&table, t),
        32 => four_from(&table, t),
        33 => four_from(&table, t),
        34 => four_from(&table, t),
        35 => four_from(&table, t),
        36 => four_from(&table, t),
        37 => four_from(&table, t),
        38 => four_from(&table, t),
        39 => four_from(&table, t),
        40 => four_from(&table, t),
        41 => four_from(&table, t),
        42 => four_from(&table, t),
        43 => four_from(&table, t),
        44 => four_from(&table, t),
        45 => four_from(&table, t),
        46 => four_from(&table, t),
        47 => four_from(&table, t),
        48 => four_from(&table, t),
        49 => four_from(&table, t),
        50 => four_from(&table, t),
        51 => four_from(&table, t),
        52 => four_from(&table, t),
        53 => four_from(&table, t),
        54 => four_from(&table, t),
        55 => four_from(&table, t),
        56 => four_from(&table, t),
        57 => four_from(&table, t),
        58 => four_from(&table, t),
        59 => four_from(&table, t),
        60 => four_from(&table, t),
        61 => four_from(&table, t),
        62 => four_from(&table, t),
        63 => four_from(&table, t),
        64 => four_from(&table, t),
        65 => four_from(&table, t),
        66 => four_from(&table, t),
        67 => four_from(&table, t),
        68 => four_from(&table, t),
        69 => four_from(&table, t),
        70 => four_from(&table, t),
        71 => four_from(&table, t),
        72 => four_from(&table, t),
        73 => four_from(&table, t),
        74 => four_from(&table, t),
        75 => four_from(&table, t),
        76 => four_from(&table, t),
        77 => four_from(&table, t),
        78 => four_from(&table, t),
        79 => four_from(&table, t),
        80 => four_from(&table, t),
        81 => four_from(&table, t),
        82 => four_from(&table, t),
        83 => four_from(&table, t),
        84 => four_from(&table, t),
        85 => four_from(&table, t),
        86 => four_from(&table, t),
        87 => four_from(&table, t),
        88 => four_from(&table, t),
        89 => four_from(&table, t),
        90 => four_from(&table, t),
        91 => four_from(&table, t),
        92 => four_from(&table, t),
        93 => four_from(&table, t),
        94 => four_from(&table, t),
        95 => four_from(&table, t),
        96 => four_from(&table, t),
        97 => four_from(&table, t),
        98 => four_from(&table, t),
        99 => four_from(&table, t),
        100 => four_from(&table, t),
        101 => four_from(&table, t),
        102 => four_from(&table, t),
        103 => four_from(&table, t),
        104 => four_from(&table, t),
        105 => four_from(&table, t),
        106 => four_from(&table, t),
        107 => four_from(&table, t),
        108 => four_from(&table, t),
        109 => four_from(&table, t),
        110 => four_from(&table, t),
        111 => four_from(&table, t),
        112 => four_from(&table, t),
        113 => four_from(&table, t),
        114 => four_from(&table, t),
        115 => four_from(&table, t),
        116 => four_from(&table, t),
        117 => four_from(&table, t),
        118 => four_from(&table, t),
        119 => four_from(&table, t),
        120 => four_from(&table, t),
        121 => four_from(&table, t),
        122 => four_from(&table, t),
        123 => four_from(&table, t),
        124 => four_from(&table, t),
        125 => four_from(&table, t),
        126 => four_from(&table, t),
        127 => four_from(&table, t),
        128 => four_from(&table, t),
        129 => four_from(&table, t),
        130 => four_from(&table, t),
        131 => four_from(&table, t),
        132 => four_from(&table, t),
        133 => four_from(&table, t),
        134 => four_from(&table, t),
        135 => four_from(&table, t),
        136 => four_from(&table, t),
        137 => four_from(&table, t),
        138 => four_from(&table, t),
        139 => four_from(&table, t),
        140 => four_from(&table, t),
        _ => {
            let again = chapter_table();
            four_from(&again, t)
        }
    }
}

fn chapter_table() -> Entries
    ensures { result ≡ chapter_table }
{
    TABLE
}

// A comment stands at every tenth year.
const TABLE: Entries = [
    // 0
    0, 12, 24, 37, 49, 61, 74, 86, 98, 111,
    // 10
    123, 136, 148, 160, 173, 185, 197, 210, 222, 234,
    // 20
    247, 259, 272, 284, 296, 309, 321, 333, 346, 358,
    // 30
    371, 383, 395, 408, 420, 432, 445, 457, 469, 482,
    // 40
    494, 507, 519, 531, 544, 556, 568, 581, 593, 606,
    // 50
    618, 630, 643, 655, 667, 680, 692, 704, 717, 729,
    // 60
    742, 754, 766, 779, 791, 803, 816, 828, 841, 853,
    // 70
    865, 878, 890, 902, 915, 927, 939, 952, 964, 977,
    // 80
    989, 1001, 1014, 1026, 1038, 1051, 1063, 1076, 1088, 1100,
    // 90
    1113, 1125, 1137, 1150, 1162, 1174, 1187, 1199, 1212, 1224,
    // 100
    1236, 1249, 1261, 1273, 1286, 1298, 1311, 1323, 1335, 1348,
    // 110
    1360, 1372, 1385, 1397, 1409, 1422, 1434, 1447, 1459, 1471,
    // 120
    1484, 1496, 1508, 1521, 1533, 1546, 1558, 1570, 1583, 1595,
    // 130
    1607, 1620, 1632, 1644, 1657, 1669, 1682, 1694, 1706, 1719,
    // 140
    1731, 1743, 1756, 1768, 1781, 1793, 1805, 1818, 1830, 1842,
    // 150
    1855, 1867, 1879, 1892, 1904, 1917, 1929, 1941, 1954, 1966,
    // 160
    1978, 1991, 2003, 2016, 2028, 2040, 2053, 2065, 2077, 2090,
    // 170
    2102, 2114, 2127, 2139, 2152, 2164, 2176, 2189, 2201, 2213,
    // 180
    2226, 2238, 2251, 2263, 2275, 2288, 2300, 2312, 2325, 2337,
    // 190
    2349, 2362, 2374, 2387, 2399, 2411, 2424, 2436, 2448, 2461,
    // 200
    2473, 2486, 2498, 2510, 2523, 2535, 2547, 2560, 2572, 2584,
    // 210
    2597, 2609, 2622, 2634, 2646, 2659, 2671, 2683, 2696, 2708,
    // 220
    2721, 2733, 2745, 2758, 2770, 2782, 2795, 2807, 2819, 2832,
    // 230
    2844, 2857, 2869, 2881, 2894, 2906, 2918, 2931, 2943, 2956,
    // 240
    2968, 2980, 2993, 3005, 3017, 3030, 3042, 3054, 3067, 3079,
    // 250
    3092, 3104, 3116, 3129, 3141, 3153, 3166, 3178, 3191, 3203,
    // 260
    3215, 3228, 3240, 3252, 3265, 3277, 3289, 3302, 3314, 3327,
    // 270
    3339, 3351, 3364, 3376, 3388, 3401, 3413, 3426, 3438, 3450,
    // 280
    3463, 3475, 3487, 3500, 3512, 3524, 3537, 3549, 3562, 3574,
    // 290
    3586, 3599, 3611, 3623, 3636, 3648, 3661, 3673, 3685, 3698,
    // 300
    3710, 3722, 3735, 3747, 3759, 3772, 3784, 3797, 3809, 3821,
    // 310
    3834, 3846, 3858, 3871, 3883, 3896, 3908, 3920, 3933, 3945,
    // 320
    3957, 3970, 3982, 3994, 4007, 4019, 4032, 4044, 4056, 4069,
    // 330
    4081, 4093, 4106, 4118, 4131, 4143, 4155, 4168, 4180, 4192,
    // 340
    4205, 4217, 4229, 4242, 4254, 4267, 4279, 4291, 4304, 4316,
    // 350
    4328, 4341, 4353, 4366, 4378, 4390, 4403, 4415, 4427, 4440,
    // 360
    4452, 4464, 4477, 4489, 4502, 4514, 4526, 4539, 4551, 4563,
    // 370
    4576, 4588, 4601, 4613, 4625, 4638, 4650, 4662, 4675, 4687,
    // 380
    4699, 4712, 4724, 4737, 4749, 4761, 4774, 4786, 4798, 4811,
    // 390
    4823, 4836, 4848, 4860, 4873, 4885, 4897, 4910, 4922, 4934,
    // 400
    4947, 4959, 4972, 4984, 4996, 5009, 5021, 5033, 5046, 5058,
    // 410
    5071, 5083, 5095, 5108, 5120, 5132, 5145, 5157, 5169, 5182,
    // 420
    5194, 5207, 5219, 5231, 5244, 5256, 5268, 5281, 5293, 5306,
    // 430
    5318, 5330, 5343, 5355, 5367, 5380, 5392, 5404, 5417, 5429,
    // 440
    5442, 5454, 5466, 5479, 5491, 5503, 5516, 5528, 5541, 5553,
    // 450
    5565, 5578, 5590, 5602, 5615, 5627, 5639, 5652, 5664, 5677,
    // 460
    5689, 5701, 5714, 5726, 5738, 5751, 5763, 5776, 5788, 5800,
    // 470
    5813, 5825, 5837, 5850, 5862, 5874, 5887, 5899, 5912, 5924,
    // 480
    5936, 5949, 5961, 5973, 5986, 5998, 6011, 6023, 6035, 6048,
    // 490
    6060, 6072, 6085, 6097, 6109, 6122, 6134, 6147, 6159, 6171,
    // 500
    6184, 6196, 6208, 6221, 6233, 6246, 6258, 6270, 6283, 6295,
    // 510
    6307, 6320, 6332, 6344, 6357, 6369, 6382, 6394, 6406, 6419,
    // 520
    6431, 6443, 6456, 6468, 6481, 6493, 6505, 6518, 6530, 6542,
    // 530
    6555, 6567, 6579, 6592, 6604, 6617, 6629, 6641, 6654, 6666,
    // 540
    6678, 6691, 6703, 6716, 6728, 6740, 6753, 6765, 6777, 6790,
    // 550
    6802, 6814, 6827, 6839, 6852, 6864, 6876, 6889, 6901, 6913,
    // 560
    6926, 6938,
];
