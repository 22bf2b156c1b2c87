//! The command `load`: sessions and workers over memory, and what they did in five lines.
ghost use Rattle.std.specs.Prelude.{◌≡◌, ◌⊎◌, ◌≤◌, [], string_bytes, IfOk, OnOk};
ghost use Rattle.cal_model.specs.Load.LoadSummary.{load_summary, load_users};
ghost use Rattle.cal_model.specs.State.ServerState.{directory_of};
ghost use Rattle.load_requests.specs.NumberedUsers.{AreNumbered};
ghost use Rattle.caldav_server.specs.LoadEnds.{HasLoaded, HasPrinted};
ghost use Rattle.command_words.specs.LoadSaid.{IsWithin};
ghost use Rattle.caldav_server.specs.LoadJobs.{AreJobs, IsNumber, IsOneMore, JobsMade, first_pass};
ghost use Rattle.caldav_server.specs.LoadSums.{IsSummed};
ghost use Rattle.caldav_server.specs.LoadTallies.{five_lines};

use crate::load_joins::{Tally, joined};
use crate::load_sessions::{Context, Job, Role, run_jobs};
use cal_base::{Arc, List, NoMemory, Sink, Word, write_all};
use cal_book::Book;
use cal_script::ScriptEnd;
use cal_session::Service;
use command_words::{LoadWords, Untaken, read_load};
use load_requests::load_users;
use privileges::Users;
use sha2::{Digest, Sha256};
use std::alloc::{AllocError, Global};
use std::sync::Wait;
use std::thread::Threads;
use turn_lock::Pass;

/// Runs the command: the sessions put events that are drawn and ask for them, all at once and beside
/// the workers, each over memory. What is printed is the same at each run: the definition's summary
/// of what each session would be answered alone, whatever the schedule and the number of workers.
pub(crate) fn run_load<O: Sink, R: Threads + Wait + Sync>(
    rt: &R,
    alloc: Global,
    words: &List<Word>,
    output: &mut O,
) -> ScriptEnd
    ensures known { (result.status ≡ 0) ⊎ (result.status ≡ 2) ⊎ (result.status ≡ 5) ⊎ (result.status ≡ 7) }
    ensures place { result.place ≡ 0 }
    ensures loaded { HasLoaded words.now result.status (O.written output.old) (O.written output.new) (O.faults output.old) (O.faults output.new) }
    ensures never_falls { O.faults output.old ≤ O.faults output.new }
{
    let status = match read_load(alloc, words.as_slice()) {
        Ok(words) => print_load(rt, alloc, words, output),
        Err(Untaken::Words) => 2,
        Err(Untaken::NoMemory) => 7,
    };
    ScriptEnd { status, place: 0 }
}

/// Runs all, and prints what was done. Gives the status.
fn print_load<O: Sink, R: Threads + Wait + Sync>(
    rt: &R,
    alloc: Global,
    words: LoadWords,
    output: &mut O,
) -> u8
    requires { IsWithin words }
    ensures printed { HasPrinted (load_summary words.puts words.sessions) result (O.written output.old) (O.written output.new) (O.faults output.old) (O.faults output.new) }
    ensures never_falls { O.faults output.old ≤ O.faults output.new }
{
    match summary_of(rt, alloc, words) {
        Ok(summary) => match write_all(output, summary.as_bytes()) {
            Ok(()) => 0,
            Err(_) => 5,
        },
        Err(NoMemory) => 7,
    }
}

/// Runs all, and says what was done.
fn summary_of<R: Threads + Wait + Sync>(
    rt: &R,
    alloc: Global,
    words: LoadWords,
) -> Result<String, NoMemory>
    requires { IsWithin words }
    ensures { IfOk result (λ text. string_bytes text ≡ load_summary words.puts words.sessions) }
{
    let users = load_users(alloc, words.sessions as u32)?;
    let (service, pass) = Service::start(alloc, Arc::try_clone(&users)?)?;
    let tally = run_all(rt, alloc, words, &users, &service, pass)?;
    told(alloc, words, tally)
}

/// The five lines.
fn told(alloc: Global, words: LoadWords, tally: Tally) -> Result<String, NoMemory>
    requires { IsSummed words.puts words.sessions tally }
    ensures { IfOk result (λ text. string_bytes text ≡ load_summary words.puts words.sessions) }
{
    let Tally {
        whole: _,
        requests,
        accepted,
        octets,
        digest,
    } = tally;
    let digest = hex::encode(alloc, digest.finalize())?;
    let text = lines(alloc, words.sessions, requests, accepted, octets, &digest)?;
    Ok(text)
}

/// The five lines of these numbers and this digest.
fn lines(
    alloc: Global,
    sessions: u64,
    requests: u64,
    accepted: u64,
    octets: u64,
    digest: &str,
) -> Result<String, AllocError>
    ensures { IfOk result (λ text. string_bytes text ≡ five_lines sessions requests accepted octets digest.now) }
{
    format!(in alloc;
        "sessions {sessions}\nrequests {requests}\naccepted {accepted}\noctets {octets}\nsha256 {digest}\n"
    )
}

/// Runs all threads, joins their passes, and adds up what the sessions did.
fn run_all<R: Threads + Wait + Sync>(
    rt: &R,
    alloc: Global,
    words: LoadWords,
    users: &Users,
    service: &Service,
    first: Pass<Book>,
) -> Result<Tally, NoMemory>
    requires words { IsWithin words }
    requires first { first ≡ first_pass service.now users.now }
    requires named { directory_of users.now ≡ load_users words.sessions }
    requires found { AreNumbered users.now words.sessions }
    ensures { IfOk result (IsSummed words.puts words.sessions) }
{
    let context = Context {
        alloc,
        service,
        users,
        puts: words.puts as u32,
    };
    let mut pass = first;
    let mut jobs = List::new(alloc);
    fill_jobs(rt, &context, words, &mut pass, &mut jobs)?;
    let done = run_jobs(rt, &context, jobs.into_vec())?;
    let tally = joined(service, &mut pass, done);
    if tally.whole {
        Ok(tally)
    } else {
        Err(NoMemory)
    }
}

/// A job for each session, and behind these one for each worker.
fn fill_jobs<R: Wait>(
    rt: &R,
    context: &Context<'_>,
    words: LoadWords,
    pass: &mut Pass<Book>,
    jobs: &mut List<Job>,
) -> Result<(), NoMemory>
    requires few { words.sessions ≤ 16 }
    requires first { pass.old ≡ first_pass context.now.service.now context.now.users.now }
    requires none { jobs.old ≡ [] }
    ensures made { OnOk result (JobsMade context.now.service.now context.now.users.now pass.new jobs.new) }
    ensures jobs { OnOk result (AreJobs words.sessions jobs.new) }
{
    'sessions: for session in 0..words.sessions {
        add_job(rt, context, pass, Role::Serve(session as u32), jobs)?;
    }
    'workers: for _worker in 0..words.workers {
        add_job(rt, context, pass, Role::Expand, jobs)?;
    }
    Ok(())
}

/// Makes a job with a pass of its own.
fn add_job<R: Wait>(
    rt: &R,
    context: &Context<'_>,
    pass: &mut Pass<Book>,
    role: Role,
    jobs: &mut List<Job>,
) -> Result<(), NoMemory>
    requires made { JobsMade context.now.service.now context.now.users.now pass.old jobs.old }
    requires number { IsNumber role }
    ensures made { OnOk result (JobsMade context.now.service.now context.now.users.now pass.new jobs.new) }
    ensures added { OnOk result (IsOneMore role jobs.old jobs.new) }
{
    let pass = context.service.lock().split(rt, pass)?;
    jobs.push(Job { pass, role })
}
