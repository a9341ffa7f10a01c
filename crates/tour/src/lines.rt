// Calls and live blocks, a line each.
use heap::calls::Step;
use heap::interface::Heap;

// One line for each call, with its answer.
pub fn print_steps(rt: &HostRuntime, steps: &[Step]) -> anyhow::Result<()> {
    for step in steps {
        let call = format!(in rt.alloc(); "{}", step.call)?;
        println!(rt; "  {call:<22} {}", step.answer)?;
    }
    Ok(())
}

// One line for each live block, in the order of addresses.
pub fn print_blocks<H: Heap>(rt: &HostRuntime, heap: &H) -> anyhow::Result<()> {
    println!(rt; "live:")?;
    for address in (0..heap.span()).step_by(8) {
        if let Some((start, length)) = heap.find(address)
            && start == address
        {
            println!(rt; "  {length} bytes at {address}")?;
        }
    }
    Ok(())
}
