// `pool_script` (docs/EXPORTS.md): reads a script, runs it over a small pool of its own through the public calls, and puts out their
// answers and the last tables. The pool's rows and its device are arrays in here. A script whose setup isn't whole or passes the limits
// puts out nothing.
#![tactic(auto)]

ghost use Rattle.std.specs.Prelude.{◌≡◌, ◌*◌, ◌^◌, ◌≤◌, ◌<◌, length, replicate};
ghost use Rattle.pool_steps.specs.World.{before, after};
ghost use Rattle.script_format.specs.Format.{operations};
ghost use Rattle.script_format.specs.Reading.{Fine};
ghost use Rattle.output.specs.Writer.{shown, pours, poured};
ghost use Rattle.script_step.specs.Operate.{reached, spoken};
ghost use Rattle.script.specs.Script.{run_m, whole, closed, ran_m, patched_device, behind_setup, script_m};

use device::{Geometry, Place};
use limits::{DIR_WIDTH, MAX_PATH, ROW_WIDTH};
use pool_state::Pool;
use script_format::Setup;
use script_step::Ran;

// The operations from `from` on, to the end.
fn run(
    bytes: &mut [u8],
    phys: &mut [u64],
    geometry: Geometry,
    plan: &[u8],
    place: Place,
    nums: &mut [u64],
    names: &mut [u8],
    dirs: &mut [u8],
    pool: Pool,
    script: &[u8],
    from: usize,
    out: &mut [u8],
) -> Ran
    requires { (from ≤ length script.now) × (length script.now < 2 ^ 40) }
    ensures ops { reached (shown out.new result.at) (after bytes.new phys.new result.place nums.new names.new dirs.new result.pool)
        ≡ spoken (run_m script.now plan.now geometry
        (operations (length script.now) script.now from)
        (before bytes.old phys.old place nums.old names.old dirs.old pool)) (shown out.old 0) }
    ensures few { result.at ≤ length script.now * 65600 }
{
    let mut ran = Ran {
        place: place,
        pool: pool,
        at: 0,
    };
    let mut pos = from;
    while let Some(op) = script_format::op_at(script, pos) {
        let p = ran.place;
        let q = ran.pool;
        let at = ran.at;
        ran = script_step::step(
            bytes, phys, geometry, plan, p, nums, names, dirs, q, script, op, out, at,
        );
        pos = op.second.to;
    }
    ran
}

// The operations, and then the tables.
fn run_all(
    bytes: &mut [u8],
    phys: &mut [u64],
    geometry: Geometry,
    plan: &[u8],
    place: Place,
    nums: &mut [u64],
    names: &mut [u8],
    dirs: &mut [u8],
    pool: Pool,
    script: &[u8],
    from: usize,
    out: &mut [u8],
) -> Ran
    requires { (from ≤ length script.now) × (length script.now < 2 ^ 40) }
    ensures { reached (shown out.new result.at) (after bytes.new phys.new result.place nums.new names.new dirs.new result.pool)
        ≡ closed (run_m script.now plan.now geometry
        (operations (length script.now) script.now from)
        (before bytes.old phys.old place nums.old names.old dirs.old pool)) (shown out.old 0) }
{
    let ran = run(
        bytes, phys, geometry, plan, place, nums, names, dirs, pool, script, from, out,
    );
    let p = ran.place;
    let q = ran.pool;
    let a = script_tables::put_record(nums, names, dirs, q, out, ran.at);
    let at = script_tables::put_device(bytes, phys, p, out, a);
    Ran {
        place: p,
        pool: q,
        at: at,
    }
}

// ---- the buffers

// N times x.
fn filled<T: Copy, const N: usize>(x: T) -> [T; N]
    ensures { result ≡ replicate N x }
{
    [x; N]
}

// ---- the script

// Runs the operations from `from` on, over rows of its own, and puts out the tables.
fn on_rows(
    bytes: &mut [u8],
    phys: &mut [u64],
    script: &[u8],
    setup: Setup,
    from: usize,
    out: &mut [u8],
) -> usize
    requires { Fine script.now setup × (from ≤ length script.now) }
    ensures output { shown out.new result
        ≡ pours (whole (ran_m script.now setup bytes.old phys.old from)) (shown out.old 0) }
    ensures bytes { bytes.new ≡ (ran_m script.now setup bytes.old phys.old from).left.dev.bytes }
    ensures phys { phys.new ≡ (ran_m script.now setup bytes.old phys.old from).left.dev.phys }
{
    let rows = setup.rows;
    let dir_rows = setup.dir_rows;
    let k = rows * ROW_WIDTH;
    let m = rows * MAX_PATH;
    let d = dir_rows * DIR_WIDTH;
    let plan = setup.plan;
    let a = plan.from;
    let e = plan.to;
    let mut nums = filled::<u64, 264>(0);
    let mut names = filled::<u8, 31680>(0);
    let mut dirs = filled::<u8, 124356>(0);
    let ran = run_all(
        bytes,
        phys,
        Geometry { size: setup.size },
        &script[a..e],
        Place { at: 0, last: 0 },
        &mut nums[..k],
        &mut names[..m],
        &mut dirs[..d],
        mount::zero(),
        script,
        from,
        out,
    );
    ran.at
}

// Runs a script of this setup over a device of its own.
fn on_device(script: &[u8], setup: Setup, out: &mut [u8]) -> usize
    requires { Fine script.now setup }
    ensures { shown out.new result
        ≡ pours (behind_setup script.now setup (patched_device script.now setup)) (shown out.old 0) }
{
    let slots = setup.slots;
    let n = slots * setup.size;
    let mut bytes = filled::<u8, 65536>(0);
    let Some(from) = script_format::patch(script, setup.patches, setup.count, &mut bytes[..n])
    else {
        return 0;
    };
    let mut phys = filled::<u64, 64>(0);
    script_format::lengths(script, setup.phys, &mut phys[..slots]);
    on_rows(
        &mut bytes[..n],
        &mut phys[..slots],
        script,
        setup,
        from,
        out,
    )
}

// Runs the script, and writes what it puts out to out as far as that reaches. Gives the length of the whole output, 0 if the setup isn't
// whole.
pub fn pool_script(script: &[u8], out: &mut [u8]) -> usize
    ensures { shown out.new result ≡ poured (script_m script.now) out.old }
{
    let Some(setup) = script_format::setup_at(script) else {
        return 0;
    };
    on_device(script, setup, out)
}
