// What a line stands for, at a place (document 02, b, "Runs of departures"): its own fields, an occurrence of a run, a miss, or a refusal.
#![tactic(auto)]

ghost use Rattle.std.specs.Prelude.{◌≡◌, true, ◌<◌};
ghost use Rattle.value.specs.Values.{ok_offset, ok_date_time};
ghost use Rattle.text.specs.Alike.{moment_of};
ghost use Rattle.run_times.specs.Occurrences.{most_occurrences};
ghost use Rattle.run_times.specs.Laws.{GoodTimes};
ghost use Rattle.run_times.specs.Carried.{span_times};
ghost use Rattle.run_cases.specs.StandsFor.{is_run, fields_read, stands_for};
ghost use Rattle.run_cases.specs.Carried.{Alone, timed_in, time_read, time_meaning, step_read, step_meaning, run_from, after_last, after_first, spans_read, read_meaning, GoodSpans, ShowsOccurrence, ShowsRun, Shows};

use numerals::ValueText;
use run_times::Run;
use value::{DateTime, Kind, Offset, Refusal, Span, Value, Zone};
use value_instants::ticks;

// The word that makes a line a run stands in its second field; first, last and step stand in the next three.
const WORD: usize = 2;

const FIRST: usize = 3;

const LAST: usize = 4;

const STEP: usize = 5;

// What a line has at a place: a row to be judged, nothing (a miss), or a refusal.
#[derive(Clone, Copy)]
pub enum CaseRead {
    Row,
    Miss,
    Refused(Refusal),
}

// That, the made text of the row's second field (empty for none), and whether the line has a case at the next place.
#[derive(Drop)]
pub struct CaseAtPlace {
    pub read: CaseRead,
    pub made: ValueText,
    pub more: bool,
}

// The times of a dateTime, and its own zone.
#[derive(Clone, Copy)]
pub struct Timed {
    pub local: Span,
    pub instant: Span,
    pub zone: Zone,
}

// A run in spans, and the zone that its occurrences are written in.
#[derive(Clone, Copy)]
pub struct RunSpans {
    pub run: Run,
    pub zone: Zone,
}

// A case without a made text, and with nothing after it.
fn alone(read: CaseRead) -> CaseAtPlace
    ensures { Alone result read }
{
    CaseAtPlace {
        read,
        made: ValueText::new(),
        more: false,
    }
}

fn is_run(line: &[u8]) -> bool
    ensures { result ≡ is_run line.now }
{
    timetable::fields::is_field(line, WORD, b"every")
}

// The record of a value; of a duration its kind's template.
fn moment(v: Value) -> DateTime
    ensures { result ≡ moment_of v }
{
    match v {
        Value::Moment(_, d) => d,
        Value::DayTime(_) => value::kinds::template(Kind::DayTimeDuration),
        Value::YearMonth(_) => value::kinds::template(Kind::YearMonthDuration),
    }
}

// The times of a dateTime.
fn times_of(d: DateTime, zone: Offset) -> Timed
    requires { (ok_date_time d ≡ true) × (ok_offset zone ≡ true) }
    ensures { result ≡ timed_in zone d }
{
    let local = ticks::local(d);
    let own = d.zone;
    let offset = ticks::offset_in(zone, own);
    Timed {
        local,
        instant: ticks::instant_at(local, offset),
        zone: own,
    }
}

// First or last: the n-th field.
fn time_read(line: &[u8], n: usize, zone: Offset) -> Result<Timed, Refusal>
    requires { ok_offset zone ≡ true }
    ensures { time_meaning result ≡ time_read zone line.now n }
{
    let v = text_fields::read(Kind::DateTime, line, n, &line[..0])?;
    Ok(times_of(moment(v), zone))
}

fn step_read(line: &[u8]) -> Result<Span, Refusal>
    ensures { step_meaning result ≡ step_read line.now }
{
    let v = text_fields::read(Kind::DayTimeDuration, line, STEP, &line[..0])?;
    Ok(ticks::forward(v))
}

fn run_from(a: Timed, b: Timed, step: Span) -> RunSpans
    ensures { result ≡ run_from a b step }
{
    let first = a.instant;
    let last = b.instant;
    let local = a.local;
    let zone = a.zone;
    RunSpans {
        run: Run {
            first,
            last,
            local,
            step,
        },
        zone,
    }
}

// Fields 3, 4 and 5 in their turn: the last of them first.
fn after_last(line: &[u8], first: Timed, last: Timed) -> Result<RunSpans, Refusal>
    ensures { read_meaning result ≡ after_last line.now first last }
{
    let step = step_read(line)?;
    Ok(run_from(first, last, step))
}

fn after_first(line: &[u8], first: Timed, zone: Offset) -> Result<RunSpans, Refusal>
    requires { ok_offset zone ≡ true }
    ensures { read_meaning result ≡ after_first zone line.now first }
{
    let last = time_read(line, LAST, zone)?;
    after_last(line, first, last)
}

fn run_read(line: &[u8], zone: Offset) -> Result<RunSpans, Refusal>
    requires { ok_offset zone ≡ true }
    ensures { read_meaning result ≡ spans_read zone (fields_read line.now) }
{
    let first = time_read(line, FIRST, zone)?;
    after_first(line, first, zone)
}

// A good run at a place: the written text of its occurrence there, or nothing.
fn at_occurrence(run: Run, zone: Zone, place: u32) -> CaseAtPlace
    requires { GoodSpans run zone × GoodTimes (span_times run) × (place < most_occurrences) }
    ensures { ShowsOccurrence result run zone place }
{
    if !run_times::reached(run, place) {
        return alone(CaseRead::Miss);
    }
    let more = run_times::reached(run, place + 1);
    let t = run_times::occurrence(run, place);
    match ticks::placed(t, zone) {
        None => alone(CaseRead::Miss),
        Some(d) => CaseAtPlace {
            read: CaseRead::Row,
            made: text::text_of(Value::Moment(Kind::DateTime, d)),
            more,
        },
    }
}

// A run at a place: the refusal of a bad one, at any place.
fn at_run(run: Run, zone: Zone, place: u32) -> CaseAtPlace
    requires { GoodSpans run zone × (place < most_occurrences) }
    ensures { ShowsRun result run zone place }
{
    match run_times::checked(run) {
        Err(r) => alone(CaseRead::Refused(r)),
        Ok(()) => at_occurrence(run, zone, place),
    }
}

// A line at a place, without the list of what it stands for.
pub fn at_place(line: &[u8], place: u32, zone: Offset) -> CaseAtPlace
    requires { (place < most_occurrences) × (ok_offset zone ≡ true) }
    ensures { Shows result line.now (stands_for zone line.now) place }
{
    if !is_run(line) {
        if place == 0 {
            return alone(CaseRead::Row);
        }
        return alone(CaseRead::Miss);
    }
    match run_read(line, zone) {
        Err(r) => alone(CaseRead::Refused(r)),
        Ok(x) => {
            let run = x.run;
            let own = x.zone;
            at_run(run, own, place)
        }
    }
}
