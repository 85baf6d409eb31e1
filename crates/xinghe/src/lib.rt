// The calendars for C and Rust: the functions of include/xinghe.h, here the Xinghe's. Each takes any numbers, returns 0 or the number under which it
// refuses, and writes its values as plain numbers to the arrays lent to it: zeros where it refuses.
#![tactic(auto)]

ghost use Rattle.std.specs.Prelude.{◌≡◌, [], ◌∷◌, length};
ghost use Rattle.refusal.specs.Numbers.{answer_number};
ghost use Rattle.std.specs.Result.{result_unwrap_or};
ghost use Rattle.calendar.specs.Heads.{year_head};
ghost use Rattle.calendar.specs.Rows.{row_fields, month_row};
ghost use Rattle.calendar.specs.Dates.{day_of_date, date_of_day};
ghost use Rattle.calendar.specs.Answers.{zero_head, zero_row};
ghost use Rattle.lunisolar.specs.Answers.{zero_day, zero_date};
ghost use Rattle.ephemeris.specs.Jobs.{phases_at, nodes_at, corrections_at, cut_point};
ghost use Rattle.ephemeris.specs.Answers.{zero_phases, zero_nodes, zero_corrections, zero_point};
ghost use Rattle.names.specs.Names.{bytes_of, label_location, label_number};
ghost use Rattle.names.specs.Ganzhi.{ganzhi};
ghost use Rattle.planets.specs.Jobs.{conjunctions_at, stages_at, shown_stages};
ghost use Rattle.planets.specs.Answers.{zero_conjunctions};
ghost use Rattle.fields.specs.Fields.{conjunctions_fields, stages_fields, location_fields, head_fields, day_fields, date_fields, phases_fields, nodes_fields, corrections_fields, point_fields};
ghost use Rattle.calendar.specs.Carries.{carried_fields};
ghost use Rattle.walk.specs.Walked.{walk_answer_fields, zero_walk};
ghost use Rattle.fields.specs.Walks.{totals_fields};
ghost use Rattle.xinghe.specs.Years.{fill_answer_in, filled_fields};
ghost use Rattle.volumes.specs.Writer.{write_answer, after_write};
ghost use Rattle.volumes.specs.Reader.{read_answer, read_years};
ghost use Rattle.reigns.specs.Marked.{marked_answer, marked_moons};
ghost use Rattle.mending.specs.Mended.{mend_answer, after_mend, after_notes};

use calendar::rows::{FIELDS, RowFields};
use mending::MOST_BLOCKS;
use refusal::Numbered;

pub mod of_linde;
pub mod of_zhengguang;
pub mod years;

#[unsafe(no_mangle)]
pub extern "C" fn xinghe_year_head(year: u64, out: &mut [u64; 6]) -> u64
    ensures { (result ≡ answer_number (year_head year)) × (out.new ≡ head_fields (result_unwrap_or (year_head year) zero_head)) }
{
    let answer = calendar::heads::year_head(year);
    *out = fields::head_fields(answer.unwrap_or_default());
    answer.number()
}

#[unsafe(no_mangle)]
pub extern "C" fn xinghe_month_row(year: u64, place: u64, out: &mut RowFields) -> u64
    ensures { (result ≡ answer_number (month_row year place)) × (out.new ≡ row_fields (result_unwrap_or (month_row year place) zero_row)) }
{
    let answer = calendar::rows::month_row(year, place);
    *out = answer.unwrap_or_default().fields();
    answer.number()
}

#[unsafe(no_mangle)]
pub extern "C" fn xinghe_day_of_date(year: u64, place: u64, day: u64, out: &mut [u64; 2]) -> u64
    ensures { (result ≡ answer_number (day_of_date year place day)) × (out.new ≡ day_fields (result_unwrap_or (day_of_date year place day) zero_day)) }
{
    let answer = calendar::dates::day_of_date(year, place, day);
    *out = fields::day_fields(answer.unwrap_or_default());
    answer.number()
}

#[unsafe(no_mangle)]
pub extern "C" fn xinghe_date_of_day(number: u64, out: &mut [u64; 3]) -> u64
    ensures { (result ≡ answer_number (date_of_day number)) × (out.new ≡ date_fields (result_unwrap_or (date_of_day number) zero_date)) }
{
    let answer = calendar::dates::date_of_day(number);
    *out = fields::date_fields(answer.unwrap_or_default());
    answer.number()
}

#[unsafe(no_mangle)]
pub extern "C" fn xinghe_phases(year: u64, place: u64, out: &mut [u64; 12]) -> u64
    ensures { (result ≡ answer_number (phases_at year place)) × (out.new ≡ phases_fields (result_unwrap_or (phases_at year place) zero_phases)) }
{
    let answer = ephemeris::phases(year, place);
    *out = fields::phases_fields(answer.unwrap_or_default());
    answer.number()
}

#[unsafe(no_mangle)]
pub extern "C" fn xinghe_nodes(year: u64, place: u64, out: &mut [u64; 15]) -> u64
    ensures { (result ≡ answer_number (nodes_at year place)) × (out.new ≡ nodes_fields (result_unwrap_or (nodes_at year place) zero_nodes)) }
{
    let answer = ephemeris::nodes(year, place);
    *out = fields::nodes_fields(answer.unwrap_or_default());
    answer.number()
}

#[unsafe(no_mangle)]
pub extern "C" fn xinghe_corrections(year: u64, place: u64, out: &mut [u64; 14]) -> u64
    ensures { (result ≡ answer_number (corrections_at year place)) × (out.new ≡ corrections_fields (result_unwrap_or (corrections_at year place) zero_corrections)) }
{
    let answer = ephemeris::corrections(year, place);
    *out = fields::corrections_fields(answer.unwrap_or_default());
    answer.number()
}

#[unsafe(no_mangle)]
pub extern "C" fn xinghe_cut_point(year: u64, cut: u64, index: u64, out: &mut [u64; 3]) -> u64
    ensures { (result ≡ answer_number (cut_point year cut index)) × (out.new ≡ point_fields (result_unwrap_or (cut_point year cut index) zero_point)) }
{
    let answer = ephemeris::cut_point(year, cut, index);
    *out = fields::point_fields(answer.unwrap_or_default());
    answer.number()
}

#[unsafe(no_mangle)]
pub extern "C" fn xinghe_conjunctions(year: u64, planet: u64, out: &mut [u64; 10]) -> u64
    ensures { (result ≡ answer_number (conjunctions_at year planet)) × (out.new ≡ conjunctions_fields (result_unwrap_or (conjunctions_at year planet) zero_conjunctions)) }
{
    let answer = planets::conjunctions(year, planet);
    *out = fields::conjunctions_fields(answer.unwrap_or_default());
    answer.number()
}

// All stages of a planet, of ten numbers each, and how many there are.
#[unsafe(no_mangle)]
pub extern "C" fn xinghe_stages(planet: u64, count: &mut [u64; 1], out: &mut [[u64; 10]; 14]) -> u64
    ensures { (result ≡ answer_number (stages_at planet)) × (count.new ≡ (shown_stages planet).count ∷ []) × (out.new ≡ stages_fields (shown_stages planet).stages) }
{
    let counted = planets::stage_count(planet);
    *count = [counted.unwrap_or(0)];
    *out = planets::table::rows_of(planet);
    counted.number()
}

// Where the name of a day of the sixty is found: in whose list, and from which byte on. A part of a list can't be handed to C.
#[unsafe(no_mangle)]
pub extern "C" fn xinghe_label(day: u64, theirs: &[u8], house: &[u8], out: &mut [u64; 2]) -> u64
    ensures { (result ≡ label_number day (bytes_of theirs.entry) (bytes_of house.entry)) × (out.new ≡ location_fields (label_location day (bytes_of theirs.entry) (bytes_of house.entry))) }
{
    let answer = names::label_location(day, theirs.len(), house.len());
    *out = fields::location_fields(answer);
    answer.number()
}

// The sixty stem and branch names, a list for those who have none.
#[unsafe(no_mangle)]
pub extern "C" fn xinghe_ganzhi_names(out: &mut [u8; 360]) -> u64
    ensures { (result ≡ 0) × (out.new ≡ ganzhi) }
{
    *out = names::ganzhi::names();
    0
}

// `row` is thirteen numbers, refused under 4 unless they are a genuine row's.
#[unsafe(no_mangle)]
pub extern "C" fn xinghe_carry(row: &RowFields, count: i64, out: &mut RowFields) -> u64
    ensures { (result ≡ answer_number (carried_fields row.now count)) × (out.new ≡ row_fields (result_unwrap_or (carried_fields row.now count) zero_row)) }
{
    let answer = calendar::carries::carry_fields(row, count);
    *out = answer.unwrap_or_default().fields();
    answer.number()
}

// A row carried by each of the counts in turn; refused under 4 where it isn't genuine.
#[unsafe(no_mangle)]
pub extern "C" fn xinghe_walk(
    row: &RowFields,
    counts: &[i64],
    out: &mut RowFields,
    totals: &mut [u64; 3],
) -> u64
    ensures { (result ≡ answer_number (walk_answer_fields row.now counts.now)) × (out.new ≡ row_fields (result_unwrap_or (walk_answer_fields row.now counts.now) zero_walk).row) × (totals.new ≡ totals_fields (result_unwrap_or (walk_answer_fields row.now counts.now) zero_walk).sum (result_unwrap_or (walk_answer_fields row.now counts.now) zero_walk).answered) }
{
    let answer = walk::walk_fields(row, counts);
    let end = answer.unwrap_or_default();
    *out = end.row.fields();
    *totals = fields::walks::totals_fields(end.sum, end.answered);
    answer.number()
}

// The year's rows, of thirteen numbers each, are stored by place at the front of the lent list, and the rest of it stays. Refused, nothing is
// written.
#[unsafe(no_mangle)]
pub extern "C" fn xinghe_fill_year(year: u64, out: &mut [u64]) -> u64
    ensures { (result ≡ answer_number (fill_answer_in year (length out.old))) × (out.new ≡ filled_fields year out.old) }
{
    let head = calendar::heads::year_head(year);
    let answer = years::answer_in(head, out.len());
    let n = answer.unwrap_or(0) as usize;
    let mut elements = year_list::first_elements(head);
    for i in 0..n {
        years::put(out, FIELDS * i, years::fields_at(year, head, i, elements));
        // the next month's by additions, which is shorter than from the origin
        elements = elements.next();
    }
    answer.number()
}

// The volume of the years from the first to the last is stored at the front of the lent buffer, and the rest of it stays. Refused, nothing is
// written there.
#[unsafe(no_mangle)]
pub extern "C" fn xinghe_write_volume(
    first: u64,
    last: u64,
    out: &mut [u8],
    count: &mut [u64; 1],
) -> u64
    ensures { (result ≡ answer_number (write_answer first last (length out.old))) × (out.new ≡ after_write first last out.old) × (count.new ≡ result_unwrap_or (write_answer first last (length out.old)) 0 ∷ []) }
{
    let answer = volumes::writer::write(first, last, out);
    *count = [answer.unwrap_or(0)];
    answer.number()
}

// The first and the last year of a volume.
#[unsafe(no_mangle)]
pub extern "C" fn xinghe_read_volume(volume: &[u8], years: &mut [u64; 2]) -> u64
    ensures { (result ≡ answer_number (read_answer volume.now)) × (years.new ≡ read_years (read_answer volume.now)) }
{
    let answer = volumes::reader::read(volume);
    let (first, last) = answer.unwrap_or_default();
    *years = [first, last];
    answer.number()
}

// The marked new moons and the marked full moons from one year of a volume to another.
#[unsafe(no_mangle)]
pub extern "C" fn xinghe_marked(volume: &[u8], from: u64, to: u64, moons: &mut [u64; 2]) -> u64
    ensures { (result ≡ answer_number (marked_answer volume.now from to)) × (moons.new ≡ marked_moons (marked_answer volume.now from to)) }
{
    let answer = reigns::marked(volume, from, to);
    let (news, fulls) = answer.unwrap_or_default();
    *moons = [news, fulls];
    answer.number()
}

// A scratched volume is mended where it is, and the indices of the blocks that were written afresh are stored at the front of the lent list, the rest
// of which stays. Refused, nothing is written to either.
#[unsafe(no_mangle)]
pub extern "C" fn xinghe_mend(
    volume: &mut [u8],
    damaged: &mut [u64; MOST_BLOCKS],
    count: &mut [u64; 1],
) -> u64
    ensures { (result ≡ answer_number (mend_answer volume.old)) × (volume.new ≡ after_mend volume.old) × (damaged.new ≡ after_notes volume.old damaged.old) × (count.new ≡ result_unwrap_or (mend_answer volume.old) 0 ∷ []) }
{
    let mended = mending::mend(volume, damaged);
    *count = [mended.unwrap_or(0)];
    mended.number()
}
