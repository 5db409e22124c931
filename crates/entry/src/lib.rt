// What the Rust service calls: the clearing, exported. Its promise is the clearing's own, in the numbers of docs/RULES.md.
#![tactic(auto)]

ghost use Rattle.clearing.specs.Promise.{Result};

#[unsafe(no_mangle)]
pub extern "C" fn clearing_clear(file: &[u8], answer: &mut [u8]) -> u64
    ensures { Result file.now answer.old result answer.new }
{
    match clearing::clear(file, answer) {
        Ok(size) => size as u64,
        Err(refusal) => 65536 * u64::from(refusal.rule.number()) + u64::from(refusal.place),
    }
}
