// Builds a tree with two branches, and prints how deep each domain lies and the route between each
// two.
#![tactic(auto)]

use anyhow::{Context, anyhow};
use tree::{Route, TreeTable};

// Attaches below a domain, and says what came of it.
fn attach(
    rt: &impl Print,
    tree: &mut TreeTable,
    domain: usize,
    upper: u32,
    lower: u32,
) -> anyhow::Result<()> {
    let (firewall, below) = tree
        .attach(domain, upper, lower)
        .map_err(|_| anyhow!("the tree does not take the firewall"))?;
    println!(rt;
        "attach at domain {domain} by {upper} and {lower}: firewall {firewall}, domain {below}"
    )?;
    Ok(())
}

fn branch(
    rt: &impl Print,
    tree: &mut TreeTable,
    firewall: usize,
    interface: u32,
) -> anyhow::Result<()> {
    let below = tree
        .branch(firewall, interface)
        .map_err(|_| anyhow!("the tree does not take the domain"))?;
    println!(rt; "branch at firewall {firewall} by {interface}: domain {below}")?;
    Ok(())
}

fn print_depths(rt: &impl Print, tree: &TreeTable) -> anyhow::Result<()> {
    for domain in 0..tree.domain_count() {
        if let Some(depth) = tree.depth(domain) {
            println!(rt; "domain {domain} has depth {depth}")?;
        }
    }
    Ok(())
}

// One line: each firewall, and the interface that it is entered by.
fn print_route(rt: &impl Print, from: usize, to: usize, route: &Route) -> anyhow::Result<()> {
    print!(rt; "from {from} to {to}:")?;
    for (place, hop) in route.hops().iter().enumerate() {
        let comma = if place == 0 { "" } else { "," };
        print!(rt; "{comma} firewall {} by {}", hop.firewall, hop.entered)?;
    }
    println!(rt; "")?;
    Ok(())
}

// The routes between each two domains; how many there are.
fn print_routes(rt: &impl Print, tree: &TreeTable) -> anyhow::Result<usize> {
    let mut count: usize = 0;
    for from in 0..tree.domain_count() {
        for to in 0..tree.domain_count() {
            if from != to {
                let route = tree.route(from, to).context("a route is missing")?;
                print_route(rt, from, to, &route)?;
                count = count.saturating_add(1);
            }
        }
    }
    Ok(count)
}

fn run(rt: &impl Print) -> anyhow::Result<()> {
    let mut tree = TreeTable::new();
    attach(rt, &mut tree, 0, 0, 1)?;
    attach(rt, &mut tree, 1, 0, 1)?;
    branch(rt, &mut tree, 0, 2)?;
    print_depths(rt, &tree)?;
    let routes = print_routes(rt, &tree)?;
    let domains = tree.domain_count();
    let firewalls = tree.firewall_count();
    println!(rt; "{domains} domains, {firewalls} firewalls, {routes} routes")?;
    Ok(())
}

fn main(rt: HostRuntime) -> anyhow::Result<()> {
    run(&rt)
}
